//! The descriptor of a note, read as one kind or another. None of these looks at the note's name or type.
ghost use Rattle.std.specs.Prelude.{◌≡◌, IfOk};
ghost use Rattle.std.specs.Result.{result_err};
ghost use Rattle.core_notes.specs.Descriptor as spec;
ghost use Rattle.core_notes.specs.DescriptorWords as bytes;
ghost use Rattle.core_notes.specs.FileList.{files_fault};
ghost use Rattle.core_notes.specs.FileWords.{files_bytes};

use crate::faults::NoteField;
use elf_view::Note;

// The bytes of the descriptors of one size: struct elf_prstatus, struct elf_prpsinfo.
const PRSTATUS_SIZE: usize = 376;

const PRPSINFO_SIZE: usize = 136;

/// NT_PRSTATUS. `DescSize` if it does not have 376 bytes.
pub fn status<'a>(note: &Note<'a>) -> Result<crate::thread_state::Status<'a>, NoteField>
    ensures fault { result_err result ≡ spec.status_fault note.now.desc.now }
    ensures desc { IfOk result (λ s. bytes.status_bytes s ≡ note.now.desc.now) }
{
    if note.desc.len() != PRSTATUS_SIZE {
        return Err(NoteField::DescSize);
    }
    Ok(crate::thread_state::Status::new(note.desc))
}

/// NT_PRPSINFO. `DescSize` if it does not have 136 bytes.
pub fn psinfo<'a>(note: &Note<'a>) -> Result<crate::process_info::PsInfo<'a>, NoteField>
    ensures fault { result_err result ≡ spec.psinfo_fault note.now.desc.now }
    ensures desc { IfOk result (λ p. bytes.psinfo_bytes p ≡ note.now.desc.now) }
{
    if note.desc.len() != PRPSINFO_SIZE {
        return Err(NoteField::DescSize);
    }
    Ok(crate::process_info::PsInfo::new(note.desc))
}

/// NT_AUXV. `DescSize` if its size is no multiple of 16 bytes.
pub fn auxv<'a>(note: &Note<'a>) -> Result<crate::auxiliary::Auxv<'a>, NoteField>
    ensures fault { result_err result ≡ spec.auxv_fault note.now.desc.now }
    ensures desc { IfOk result (λ a. bytes.auxv_bytes a ≡ note.now.desc.now) }
{
    if note.desc.len() % 16 != 0 {
        return Err(NoteField::DescSize);
    }
    Ok(crate::auxiliary::Auxv::new(note.desc))
}

/// NT_SIGINFO. `DescSize` if it has fewer than 24 bytes.
pub fn siginfo<'a>(note: &Note<'a>) -> Result<crate::signal_info::SigInfo<'a>, NoteField>
    ensures fault { result_err result ≡ spec.siginfo_fault note.now.desc.now }
    ensures desc { IfOk result (λ s. bytes.siginfo_bytes s ≡ note.now.desc.now) }
{
    if note.desc.len() < 24 {
        return Err(NoteField::DescSize);
    }
    Ok(crate::signal_info::SigInfo::new(note.desc))
}

/// NT_FILE. The first of these that holds: `FileCount`, the count and its entries are not all there; `FileOffset`, an
/// entry ends before it starts or exceeds the highest u64; `FileNames`, there are fewer names.
pub fn files<'a>(note: &Note<'a>) -> Result<crate::file_list::Files<'a>, NoteField>
    ensures fault { result_err result ≡ files_fault note.now.desc.now }
    ensures desc { IfOk result (λ f. files_bytes f ≡ note.now.desc.now) }
{
    crate::file_list::check_files(note.desc)?;
    Ok(crate::file_list::Files::new(note.desc))
}
