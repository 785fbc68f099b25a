// Notes that are not read.
ghost use Rattle.std.specs.Prelude.{◌≡◌, ◌+◌, ◌*◌, ◌≤◌, length};
ghost use Rattle.std.specs.List.{list_any};
ghost use Rattle.elf_view.specs.NoteWords.{note_view, notes_left};
ghost use Rattle.core_checks.specs.Unread as spec;

use elf_view::{Elf, ElfField, Note, Notes, Want, u16_at, u32_at, u64_at};

/// The p_type of a segment of notes.
const PT_NOTE: u32 = 4;

/// The n_type of a thread's state.
const NT_PRSTATUS: u32 = 1;

/// Why notes of a core are not read as they are meant.
#[derive(Clone, Copy, PartialEq, Eq)]
pub enum UnreadNotes {
    /// They are padded to 8 bytes, and only those that are padded to 4 are read.
    Padded,
    /// A thread's state is in a note that is named LINUX, and only those that are named CORE are read.
    Linux,
}

/// Whether the program header at a place is that of notes which are padded to 8 bytes.
fn is_padded(image: &[u8], at: usize) -> bool
    requires { at + 56 ≤ length image.now }
    ensures { result ≡ spec.is_padded image.now at }
{
    u32_at(image, at) == PT_NOTE && u64_at(image, at + 48) == 8
}

/// Whether one of so many program headers from a place on is so.
fn any_padded(image: &[u8], table: usize, count: u16) -> bool
    requires { table + 56 * count ≤ length image.now }
    ensures { result ≡ spec.any_padded image.now table count }
{
    let mut found = false;
    for i in 0..count {
        found = found || is_padded(image, table + 56 * usize::from(i));
    }
    found
}

/// Whether one of an image's is so, if its header and all of them are there.
#[tactic(auto, unfolding(crate::specs::Unread::has_padded))]
fn has_padded(image: &[u8]) -> bool
    ensures { result ≡ spec.has_padded image.now }
{
    if image.len() < 64 {
        return false;
    }
    let table = u64_at(image, 32);
    let count = u16_at(image, 56);
    if (image.len() as u128) < u128::from(table) + 56 * u128::from(count) {
        return false;
    }
    any_padded(image, table as usize, count)
}

/// Whether a note does not fit.
fn is_of_note(field: ElfField) -> bool
    ensures { result ≡ spec.is_of_note «field» }
{
    matches!(field, ElfField::NNamesz | ElfField::NDescsz)
}

/// Whether a note is a thread's state that is named LINUX.
fn is_linux_state(note: &Note<'_>) -> bool
    ensures { result ≡ spec.is_linux_state (note_view note.now) }
{
    note.kind == NT_PRSTATUS && note.name == b"LINUX".as_slice()
}

/// Whether one of the notes is so.
fn has_linux_state(notes: Notes<'_>) -> bool
    ensures { result ≡ list_any spec.is_linux_state (notes_left notes.entry) }
{
    let mut rest = notes;
    while let Some(note) = rest.next() {
        if is_linux_state(&note) {
            return true;
        }
    }
    false
}

/// Why notes of a core are not read as they are meant, if some are not. These are its first bytes, or all; a core whose notes are not
/// among them is not judged.
#[tactic(auto, unfolding(crate::specs::Unread::unread_notes))]
pub fn unread_notes(image: &[u8]) -> Option<UnreadNotes>
    ensures { result ≡ spec.unread_notes image.now }
{
    match Elf::read(image, Want::Core) {
        Ok(elf) if has_linux_state(elf.notes()) => Some(UnreadNotes::Linux),
        Err(fault) if is_of_note(fault.field) && has_padded(image) => Some(UnreadNotes::Padded),
        _ => None,
    }
}
