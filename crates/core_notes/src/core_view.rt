// The typed notes of a core.
ghost use Rattle.std.specs.Prelude.{◌≡◌, ◌∷◌, List, [], ℕ, IfOk, MatchOption, length};
ghost use Rattle.std.specs.Option.{option_map};
ghost use Rattle.std.specs.Result.{result_err};
ghost use Rattle.elf_view.specs.NoteWords.{notes_left};
ghost use Rattle.elf_view.specs.ViewWords.{image_of, want_of, notes_of};
ghost use Rattle.core_notes.specs.DescriptorWords as bytes;
ghost use Rattle.core_notes.specs.FileWords.{files_bytes};
ghost use Rattle.core_notes.specs.NoteWords.{first_view};
ghost use Rattle.core_notes.specs.Typed as typed;

use crate::auxiliary::Auxv;
use crate::faults::NoteFault;
use crate::file_list::Files;
use crate::first_notes::{FirstNotes, NT_PRSTATUS, first_notes, is_typed};
use crate::process_info::PsInfo;
use crate::signal_info::SigInfo;
use crate::thread_state::Status;
use elf_view::{Elf, Notes};

/// The typed notes of a core, those named CORE: every NT_PRSTATUS, and the first of each other type.
#[derive(Clone, Copy, Debug)]
pub struct CoreNotes<'a> {
    notes: Notes<'a>,
    first: FirstNotes<'a>,
    ghost whole: { typed.AreStatusesWhole (notes_left notes) },
    ghost first_is: { first_view first ≡ typed.first_descs (notes_left notes) },
}

/// The states of a core's threads, in the order of their notes.
#[derive(Clone, Copy, Debug)]
pub struct Statuses<'a> {
    notes: Notes<'a>,
    ghost whole: { typed.AreStatusesWhole (notes_left notes) },
}

/// The next NT_PRSTATUS of those that are left.
fn next_status<'a>(notes: &mut Notes<'a>) -> Option<Status<'a>>
    requires { typed.AreStatusesWhole (notes_left notes.old) }
    ensures status { MatchOption result
        ((typed.all_descs 1 (notes_left notes.old) ≡ []) × (typed.all_descs 1 (notes_left notes.new) ≡ []))
        (λ status. typed.all_descs 1 (notes_left notes.old)
        ≡ bytes.status_bytes status ∷ typed.all_descs 1 (notes_left notes.new)) }
    ensures whole { typed.AreStatusesWhole (notes_left notes.new) }
{
    while let Some(note) = notes.next() {
        if is_typed(NT_PRSTATUS, &note) {
            return Some(Status::new(note.desc));
        }
    }
    None
}

impl<'a> Iterator for Statuses<'a> {
    ghost use Rattle.std.specs.Iterator.{YieldsFirstBy, item_count};
    ghost use Rattle.core_notes.specs.CoreWords.{statuses_left};

    type Item = Status<'a>;

    ghost next_gives = { YieldsFirstBy bytes.status_bytes statuses_left };

    ghost remaining = { item_count statuses_left };

    #[tactic(auto, unfolding(crate::specs::CoreWords::statuses_left))]
    fn next(&mut self) -> Option<Status<'a>> {
        next_status(&mut self.notes)
    }
}

impl<'a> CoreNotes<'a> {
    ghost use Rattle.core_notes.specs.CoreWords.{notes_seen, statuses_left};

    /// The typed notes of a core, or the first bad one among those that are checked: every NT_PRSTATUS and the first of
    /// each other type, in the order of the notes.
    pub fn of(elf: &Elf<'a>) -> Result<CoreNotes<'a>, NoteFault>
        ensures fault { result_err result ≡ typed.core_fault (notes_of (want_of elf.now) (image_of elf.now)) }
        ensures notes { IfOk result (λ c. notes_seen c ≡ notes_of (want_of elf.now) (image_of elf.now)) }
    {
        let notes = elf.notes();
        let first = first_notes(notes)?;
        Ok(CoreNotes { notes, first })
    }

    /// The states of the threads, in the order of their notes.
    #[tactic(auto, unfolding(crate::specs::CoreWords::statuses_left))]
    pub fn statuses(&self) -> Statuses<'a>
        ensures { statuses_left result ≡ typed.all_descs 1 (notes_seen self.now) }
    {
        Statuses { notes: self.notes }
    }

    /// The first NT_PRPSINFO.
    pub fn psinfo(&self) -> Option<PsInfo<'a>>
        ensures { option_map bytes.psinfo_bytes result ≡ typed.first_desc 3 (notes_seen self.now) }
    {
        self.first.psinfo
    }

    /// The first NT_AUXV.
    pub fn auxv(&self) -> Option<Auxv<'a>>
        ensures { option_map bytes.auxv_bytes result ≡ typed.first_desc 6 (notes_seen self.now) }
    {
        self.first.auxv
    }

    /// The first NT_SIGINFO.
    pub fn siginfo(&self) -> Option<SigInfo<'a>>
        ensures { option_map bytes.siginfo_bytes result ≡ typed.first_desc 0x53494749 (notes_seen self.now) }
    {
        self.first.siginfo
    }

    /// The first NT_FILE.
    pub fn files(&self) -> Option<Files<'a>>
        ensures { option_map files_bytes result ≡ typed.first_desc 0x46494c45 (notes_seen self.now) }
    {
        self.first.files
    }
}
