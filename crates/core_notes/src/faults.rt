// The fault of a descriptor.
ghost use Rattle.std.specs.Prelude.{◌≡◌};
ghost use Rattle.core_notes.specs.FieldNames as names;

use thiserror::Error;

/// The fault of a descriptor.
#[derive(Clone, Copy, Debug, PartialEq, Eq, Error)]
pub enum NoteField {
    /// It has another size than its kind of note.
    #[error("DescSize")]
    DescSize,
    /// The count of an NT_FILE, or as many entries as it says, do not fit in it.
    #[error("FileCount")]
    FileCount,
    /// An entry of an NT_FILE ends before it starts, or its last byte's place in the file is over 2^64 - 1.
    #[error("FileOffset")]
    FileOffset,
    /// An NT_FILE has fewer names than entries.
    #[error("FileNames")]
    FileNames,
}

impl NoteField {
    /// Its name in this project's words: no standard names the faults of a descriptor.
    pub fn name(self) -> &'static str
        ensures { result.now ≡ names.note_field_name self }
    {
        match self {
            NoteField::DescSize => "DescSize",
            NoteField::FileCount => "FileCount",
            NoteField::FileOffset => "FileOffset",
            NoteField::FileNames => "FileNames",
        }
    }
}

/// The first bad note among those that are checked.
#[derive(Clone, Copy, Debug, PartialEq, Eq, Error)]
#[error("{field} {index}")]
pub struct NoteFault {
    /// The note's number among all notes of the core. It stays at the highest u64 if there are more.
    pub index: u64,
    /// The fault of its descriptor.
    pub field: NoteField,
}
