// The first note of each type, note by note.
ghost use Rattle.std.specs.Prelude.{◌≡◌, ◌&&◌, IfOk, Some, is_none};
ghost use Rattle.std.specs.Option.{option_map, option_or};
ghost use Rattle.std.specs.Result.{result_err};
ghost use Rattle.elf_view.specs.NoteWords.{note_view, notes_left};
ghost use Rattle.core_notes.specs.Descriptor as spec;
ghost use Rattle.core_notes.specs.DescriptorWords as bytes;
ghost use Rattle.core_notes.specs.FileList.{files_fault};
ghost use Rattle.core_notes.specs.FileWords.{files_bytes};
ghost use Rattle.core_notes.specs.NoteWords.{first_view};
ghost use Rattle.core_notes.specs.Typed as typed;

use crate::auxiliary::Auxv;
use crate::descriptors;
use crate::faults::{NoteFault, NoteField};
use crate::file_list::Files;
use crate::process_info::PsInfo;
use crate::signal_info::SigInfo;
use elf_view::{Note, Notes};

pub(crate) const NT_PRSTATUS: u32 = 1;

const NT_PRPSINFO: u32 = 3;

const NT_AUXV: u32 = 6;

const NT_SIGINFO: u32 = 0x5349_4749;

const NT_FILE: u32 = 0x4649_4c45;

/// The first note of each type but NT_PRSTATUS.
#[derive(Clone, Copy, Debug)]
pub(crate) struct FirstNotes<'a> {
    pub(crate) psinfo: Option<PsInfo<'a>>,
    pub(crate) auxv: Option<Auxv<'a>>,
    pub(crate) siginfo: Option<SigInfo<'a>>,
    pub(crate) files: Option<Files<'a>>,
}

/// Whether a note is named CORE and is of a type.
pub(crate) fn is_typed(kind: u32, note: &Note<'_>) -> bool
    ensures { result ≡ typed.is_typed kind (note_view note.now) }
{
    note.name == b"CORE".as_slice() && note.kind == kind
}

/// The check of a thread's state.
fn check_status(note: &Note<'_>) -> Result<(), NoteField>
    ensures { result_err result
        ≡ typed.fault_if (typed.is_typed 1 (note_view note.now)) (spec.status_fault note.now.desc.now) }
{
    if is_typed(NT_PRSTATUS, note) {
        descriptors::status(note)?;
    }
    Ok(())
}

/// The first process, once one more note is seen.
fn next_psinfo<'a>(
    first: Option<PsInfo<'a>>,
    note: &Note<'a>,
) -> Result<Option<PsInfo<'a>>, NoteField>
    ensures fault { result_err result
        ≡ typed.fault_if (typed.is_typed 3 (note_view note.now) && is_none (option_map bytes.psinfo_bytes first.entry))
        (spec.psinfo_fault note.now.desc.now) }
    ensures first { IfOk result (λ next. option_map bytes.psinfo_bytes next
        ≡ option_or (option_map bytes.psinfo_bytes first.entry) (typed.desc_if 3 (note_view note.now))) }
{
    if first.is_some() || !is_typed(NT_PRPSINFO, note) {
        return Ok(first);
    }
    Ok(Some(descriptors::psinfo(note)?))
}

/// The first auxiliary vector, once one more note is seen.
fn next_auxv<'a>(first: Option<Auxv<'a>>, note: &Note<'a>) -> Result<Option<Auxv<'a>>, NoteField>
    ensures fault { result_err result
        ≡ typed.fault_if (typed.is_typed 6 (note_view note.now) && is_none (option_map bytes.auxv_bytes first.entry))
        (spec.auxv_fault note.now.desc.now) }
    ensures first { IfOk result (λ next. option_map bytes.auxv_bytes next
        ≡ option_or (option_map bytes.auxv_bytes first.entry) (typed.desc_if 6 (note_view note.now))) }
{
    if first.is_some() || !is_typed(NT_AUXV, note) {
        return Ok(first);
    }
    Ok(Some(descriptors::auxv(note)?))
}

/// The first signal, once one more note is seen.
fn next_siginfo<'a>(
    first: Option<SigInfo<'a>>,
    note: &Note<'a>,
) -> Result<Option<SigInfo<'a>>, NoteField>
    ensures fault { result_err result
        ≡ typed.fault_if (typed.is_typed 0x53494749 (note_view note.now) && is_none (option_map bytes.siginfo_bytes first.entry))
        (spec.siginfo_fault note.now.desc.now) }
    ensures first { IfOk result (λ next. option_map bytes.siginfo_bytes next
        ≡ option_or (option_map bytes.siginfo_bytes first.entry) (typed.desc_if 0x53494749 (note_view note.now))) }
{
    if first.is_some() || !is_typed(NT_SIGINFO, note) {
        return Ok(first);
    }
    Ok(Some(descriptors::siginfo(note)?))
}

/// The first list of mapped files, once one more note is seen.
fn next_files<'a>(first: Option<Files<'a>>, note: &Note<'a>) -> Result<Option<Files<'a>>, NoteField>
    ensures fault { result_err result
        ≡ typed.fault_if (typed.is_typed 0x46494c45 (note_view note.now) && is_none (option_map files_bytes first.entry))
        (files_fault note.now.desc.now) }
    ensures first { IfOk result (λ next. option_map files_bytes next
        ≡ option_or (option_map files_bytes first.entry) (typed.desc_if 0x46494c45 (note_view note.now))) }
{
    if first.is_some() || !is_typed(NT_FILE, note) {
        return Ok(first);
    }
    Ok(Some(descriptors::files(note)?))
}

impl<'a> FirstNotes<'a> {
    /// The first notes, once one more note is seen.
    fn after(&self, note: &Note<'a>) -> Result<FirstNotes<'a>, NoteField>
        ensures fault { result_err result ≡ typed.fault_after (first_view self.now) (note_view note.now) }
        ensures next { IfOk result (λ next. first_view next
            ≡ typed.next_descs (first_view self.now) (note_view note.now)) }
    {
        check_status(note)?;
        let psinfo = next_psinfo(self.psinfo, note)?;
        let auxv = next_auxv(self.auxv, note)?;
        let siginfo = next_siginfo(self.siginfo, note)?;
        let files = next_files(self.files, note)?;
        Ok(FirstNotes {
            psinfo,
            auxv,
            siginfo,
            files,
        })
    }
}

/// The first notes of a core, or the first bad note among those that are checked.
pub(crate) fn first_notes<'a>(notes: Notes<'a>) -> Result<FirstNotes<'a>, NoteFault>
    ensures fault { result_err result ≡ typed.core_fault (notes_left notes.entry) }
    ensures first { IfOk result (λ first. first_view first ≡ typed.first_descs (notes_left notes.entry)) }
{
    let mut notes = notes;
    let mut index: u64 = 0;
    let mut first = FirstNotes {
        psinfo: None,
        auxv: None,
        siginfo: None,
        files: None,
    };
    while let Some(note) = notes.next() {
        match first.after(&note) {
            Ok(next) => first = next,
            Err(field) => return Err(NoteFault { index, field }),
        }
        index = index.saturating_add(1);
    }
    Ok(first)
}
