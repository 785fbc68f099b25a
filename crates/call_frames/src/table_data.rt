// A section of call frame information that holds its bytes.
ghost use Rattle.std.specs.Prelude.{◌≡◌};
ghost use Rattle.call_frames.specs.EntryWords.{table_view};
ghost use Rattle.call_frames.specs.Tables as spec;

use crate::common::Format;
use crate::entries::Table;
use inflate::SectionBytes;

/// A section of call frame information, with its bytes or a slice of the file.
#[derive(Drop)]
pub(crate) struct TableData<'a> {
    /// How its entries are written.
    pub(crate) format: Format,
    /// The address of its first byte.
    pub(crate) address: u64,
    /// Its bytes.
    pub(crate) bytes: SectionBytes<'a>,
}

impl<'a> TableData<'a> {
    ghost use Rattle.call_frames.specs.EntryWords.{data_table};

    /// The section as a table, whose entries can be read.
    pub(crate) fn table(&self) -> Table<'_>
        ensures { table_view result ≡ data_table self.now }
    {
        Table {
            format: self.format,
            address: self.address,
            bytes: self.bytes.as_slice(),
        }
    }

    /// A table without entries.
    pub(crate) fn empty(format: Format) -> TableData<'a>
        ensures { data_table result ≡ spec.no_table format }
    {
        TableData {
            format,
            address: 0,
            bytes: SectionBytes::Stored(&[]),
        }
    }
}
