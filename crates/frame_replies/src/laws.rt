// What the definitions that the contracts cite say together.
ghost use Rattle.std.specs.Prelude.{◌≡◌, ℕ, List, None, Ok, Some};
ghost use Rattle.std.specs.List.{AllByRecursion};
ghost use Rattle.address_space.specs.Source.{ExecutableView, SpotView};
ghost use Rattle.build_replies.specs.Choosing.{choice_for, told_id};
ghost use Rattle.build_replies.specs.ChoosingLaws.{IsDebugOf};
ghost use Rattle.memory_replies.specs.Naming.{NamedFile};
ghost use Rattle.unwind.specs.Code.{CodeFile, CodeView, code_of};
ghost use Rattle.unwind.specs.declared.faults.Stop as stops;
ghost use Rattle.unwind.specs.declared.frame.Frame as frames;
ghost use Rattle.frame_replies.specs.Choices.{AreNoDebugFiles, IsBuildOf, IsOwnBuild, frame_by_path, process_of, spot_of_frame, unwind_by_path};
ghost use Rattle.frame_replies.specs.FrameLines.{unwind_answer};
ghost use Rattle.frame_replies.specs.FrameRegisters.{frame_answer};
ghost use Rattle.frame_replies.specs.Processes.{named_among, state_of};
ghost use Rattle.frame_replies.specs.Shown.{IsShown};

use unwind::{each_frame_stands_on_a_rule, the_frames_are_unwound};

/// Each frame that is shown after the first follows by one of the three rules of unwind. A signal saved it. Or a call to no
/// code, or to a stub of the procedure linkage table, was made from it. Or it has the values of the row of the first FDE
/// that covers the address that is looked up for the frame before. The registers that are told by a frame's number are
/// those of the frame that is shown with it. It does nothing.
pub fn each_frame_shown_stands_on_a_rule()
    ensures { (b : List ℕ) (executables : List ExecutableView) (t : ℕ) (lines : List ℕ) → unwind_answer b executables t ≡ Ok lines
        → (desc : List ℕ) × (behind : List frames.Frame) × (stop : stops.Stop) × (state_of b t ≡ Some desc) × IsShown b executables t lines desc behind stop }
{
    the_frames_are_unwound();
    each_frame_stands_on_a_rule();
}

/// No file of another build is used, and no debug file: if the core tells a build ID for a mapped file, an executable that is attached for it, or that
/// names its functions, has that ID, and so has the one in which the code of a frame is found. A debug file that names functions of a
/// mapped file is that of the build of an executable that is used for it. It does nothing.
pub fn never_another()
    ensures attached { (b : List ℕ) (stored : List ExecutableView) → AllByRecursion (λ (x : CodeFile). IsOwnBuild b x.file) (process_of b stored).executables }
    ensures named { (b : List ℕ) (stored : List ExecutableView) → AllByRecursion (λ (n : NamedFile). IsOwnBuild b n.file) (named_among (choice_for b stored)) }
    ensures debugs { (b : List ℕ) (stored : List ExecutableView) → AllByRecursion (IsDebugOf (choice_for b stored).used) (choice_for b stored).debugs }
    ensures no_debug { (b : List ℕ) (stored : List ExecutableView) → AreNoDebugFiles (choice_for b stored).used }
    ensures code { (b : List ℕ) (stored : List ExecutableView) (f : frames.Frame) (spot : SpotView) (code : CodeView) → spot_of_frame (process_of b stored) f ≡ Some spot
        → code_of (process_of b stored) f ≡ Ok code → IsBuildOf b spot.name code.image }
{}

/// If the core tells no build ID for any of its mapped files, and no debug file is stored, the path alone decides: what is stored under
/// the name of a file is used. It does nothing.
pub fn by_path_where_unknown()
    ensures unwind { (b : List ℕ) (stored : List ExecutableView) → ((path : List ℕ) → told_id b path ≡ None) → AreNoDebugFiles stored
        → (t : ℕ) → unwind_answer b stored t ≡ unwind_by_path b stored t }
    ensures frame { (b : List ℕ) (stored : List ExecutableView) → ((path : List ℕ) → told_id b path ≡ None) → AreNoDebugFiles stored
        → (t i : ℕ) → frame_answer b stored t i ≡ frame_by_path b stored t i }
{}
