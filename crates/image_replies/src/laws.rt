// Laws of all replies.
ghost use Rattle.std.specs.Prelude.{◌≡◌, ℕ, List, Ok, Err, take};
ghost use Rattle.elf_view.specs.Sound.{IsHeaderWhole, IsSound};
ghost use Rattle.elf_view.specs.declared.faults.Want.{Want};
ghost use Rattle.script_streams.specs.Lines.{IsLine};
ghost use Rattle.script_streams.specs.Replies.{reply_of};
ghost use Rattle.image_replies.specs.Auxv.{auxv_answer};
ghost use Rattle.image_replies.specs.Core.{core_fault_of};
ghost use Rattle.image_replies.specs.Ended.{AreLines};
ghost use Rattle.image_replies.specs.Files.{files_answer};
ghost use Rattle.image_replies.specs.Header.{header_answer};
ghost use Rattle.image_replies.specs.Notes.{notes_answer};
ghost use Rattle.image_replies.specs.Process.{process_answer};
ghost use Rattle.image_replies.specs.Signal.{signal_answer};
ghost use Rattle.image_replies.specs.Threads.{threads_answer, regs_answer};

use elf_view::{Want, a_sound_front_is_enough, soundness_has_no_order};
use script_streams::lines_are_cut_one_way;

/// No reply is read two ways: it has one answer's lines, or one reason; and if the lines are lines and the reason is in
/// one line, it has not both. This function does nothing.
pub fn replies_are_read_one_way()
    ensures lines { (lines others : List ℕ) → reply_of (Ok lines) ≡ reply_of (Ok others) → lines ≡ others }
    ensures reason { (reason other : List ℕ) → reply_of (Err reason) ≡ reply_of (Err other) → reason ≡ other }
    ensures apart { (lines reason : List ℕ) → AreLines lines → IsLine reason
        → reply_of (Ok lines) ≡ reply_of (Err reason) → ⊥ }
{
    lines_are_cut_one_way();
}

/// If the first bytes of an image are sound as an image of their own, these lines give the same answer for them as for the
/// whole image. This function does nothing.
pub fn a_sound_front_answers()
    ensures header { (want : Want) (b : List ℕ) (n : ℕ) → IsHeaderWhole (take n b) → IsSound want (take n b)
        → header_answer want (take n b) ≡ header_answer want b }
    ensures fault { (b : List ℕ) (n : ℕ) → IsHeaderWhole (take n b) → IsSound Want.Core (take n b)
        → core_fault_of (take n b) ≡ core_fault_of b }
    ensures notes { (b : List ℕ) (n : ℕ) → IsHeaderWhole (take n b) → IsSound Want.Core (take n b)
        → notes_answer (take n b) ≡ notes_answer b }
    ensures threads { (b : List ℕ) (n : ℕ) → IsHeaderWhole (take n b) → IsSound Want.Core (take n b)
        → threads_answer (take n b) ≡ threads_answer b }
    ensures regs { (b : List ℕ) (n thread : ℕ) → IsHeaderWhole (take n b) → IsSound Want.Core (take n b)
        → regs_answer (take n b) thread ≡ regs_answer b thread }
    ensures process { (b : List ℕ) (n : ℕ) → IsHeaderWhole (take n b) → IsSound Want.Core (take n b)
        → process_answer (take n b) ≡ process_answer b }
    ensures signal { (b : List ℕ) (n : ℕ) → IsHeaderWhole (take n b) → IsSound Want.Core (take n b)
        → signal_answer (take n b) ≡ signal_answer b }
    ensures auxv { (b : List ℕ) (n : ℕ) → IsHeaderWhole (take n b) → IsSound Want.Core (take n b)
        → auxv_answer (take n b) ≡ auxv_answer b }
    ensures files { (b : List ℕ) (n : ℕ) → IsHeaderWhole (take n b) → IsSound Want.Core (take n b)
        → files_answer (take n b) ≡ files_answer b }
{
    a_sound_front_is_enough();
    soundness_has_no_order();
}
