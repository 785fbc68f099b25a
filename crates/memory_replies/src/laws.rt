// The replies that the first bytes of a core determine, and the effect of debug files.
ghost use Rattle.std.specs.Prelude.{◌≡◌, [], ℕ, List, Option, Some, take};
ghost use Rattle.address_space.specs.Source.{ExecutableView};
ghost use Rattle.core_notes.specs.FileList.{FileView};
ghost use Rattle.elf_view.specs.Sound.{IsHeaderWhole, IsSound};
ghost use Rattle.elf_view.specs.declared.faults.Want.{Want};
ghost use Rattle.image_replies.specs.Lines.{in_core};
ghost use Rattle.memory_replies.specs.Maps.{maps_answer};
ghost use Rattle.memory_replies.specs.Memory.{mapped_files};
ghost use Rattle.memory_replies.specs.Naming.{function_of, named_files};
ghost use Rattle.memory_replies.specs.Places.{PlaceView};

use elf_view::{Want, a_sound_front_is_enough};
use image_replies::a_sound_front_answers;

/// If the first bytes of a core are sound as a core of their own, they show the mappings that the whole core shows. It does
/// nothing.
pub fn a_sound_front_shows_the_mappings()
    ensures { (b : List ℕ) (n : ℕ) → IsHeaderWhole (take n b) → IsSound Want.Core (take n b)
        → in_core (take n b) (λ notes. maps_answer (take n b)) ≡ in_core b (λ notes. maps_answer b) }
{
    a_sound_front_is_enough();
    a_sound_front_answers();
}

/// So they name the mapped files that the whole core names. It does nothing.
pub fn a_sound_front_names_the_files()
    ensures { (b : List ℕ) (n : ℕ) → IsHeaderWhole (take n b) → IsSound Want.Core (take n b)
        → mapped_files (take n b) ≡ mapped_files b }
{
    a_sound_front_is_enough();
}

/// Debug files name functions that the executables do not name. If a function
/// is known without them, it is the same with them. This function does nothing.
pub fn debug_replaces_unknown()
    ensures { (mapped : List FileView) (executables debugs : List ExecutableView) (pc : ℕ) (address : Option ℕ) (place : PlaceView)
        → function_of mapped (named_files executables []) pc address ≡ Some place → function_of mapped (named_files executables debugs) pc address ≡ Some place }
{}
