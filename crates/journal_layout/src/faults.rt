// Why an archive is not opened.
ghost use Rattle.std.specs.Prelude.{◌≡◌, Some};
ghost use Rattle.journal_layout.specs.FieldNames.{field_name};

use std::fmt;
use thiserror::Error;

/// A field of the layout that can be bad; reports print its name.
#[derive(Clone, Copy, Debug, PartialEq, Eq)]
pub enum Field {
    Shape,
    Gate,
    Generation,
    Kind,
    Reserved,
    Length,
    Seq,
    CaseKind,
    Pinned,
    NameLength,
    Runs,
    Run,
    ImageLength,
    Name,
    Padding,
    Count,
    Flag,
    Next,
    LabelLength,
}

impl Field {
    /// The field's name.
    pub fn name(self) -> &'static str
        ensures { result.now ≡ field_name self }
    {
        match self {
            Field::Shape => "shape",
            Field::Gate => "gate",
            Field::Generation => "generation",
            Field::Kind => "kind",
            Field::Reserved => "reserved",
            Field::Length => "length",
            Field::Seq => "seq",
            Field::CaseKind => "case_kind",
            Field::Pinned => "pinned",
            Field::NameLength => "name_length",
            Field::Runs => "runs",
            Field::Run => "run",
            Field::ImageLength => "image_length",
            Field::Name => "name",
            Field::Padding => "padding",
            Field::Count => "count",
            Field::Flag => "flag",
            Field::Next => "next",
            Field::LabelLength => "label_length",
        }
    }
}

impl fmt::Display for Field {
    ghost output = { λ field. Some (field_name field) };

    fn fmt<W: fmt::Write>(&self, f: &mut fmt::Formatter<W>) -> fmt::Result {
        let name = self.name();
        write!(f, "{name}")
    }
}

/// Why an archive was not opened.
#[derive(Clone, Copy, Debug, PartialEq, Eq, Error)]
pub enum OpenFault {
    /// The disk failed.
    #[error("the disk failed")]
    Disk,
    /// The disk holds no archive.
    #[error("the disk holds no archive")]
    NotAnArchive,
    /// The archive has this layout version, which is not known here.
    #[error("the archive has layout version {0}")]
    UnknownVersion(u32),
    /// This field, at this byte of the disk, is the first that is wrong.
    #[error("the archive is damaged at byte {at}: {field}")]
    Damaged { at: u64, field: Field },
    /// There was no memory.
    #[error("out of memory")]
    OutOfMemory,
}
