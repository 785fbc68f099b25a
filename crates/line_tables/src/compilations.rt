// The compilations of a file.
ghost use Rattle.std.specs.Prelude.{◌≡◌};
ghost use Rattle.std.specs.Option.{option_map};
ghost use Rattle.line_tables.specs.UnitWords.{unit_view};
ghost use Rattle.line_tables.specs.InfoEntryWords.{entry_view};
ghost use Rattle.line_tables.specs.UnitFinding as spec;

use crate::info_entries::Entry;
use crate::units::{Unit, Units};

/// The name of the attribute that has the place of a line table.
const DW_AT_STMT_LIST: u64 = 0x10;

/// The name of the attribute that has the directory of a compilation.
const DW_AT_COMP_DIR: u64 = 0x1b;

/// The compilations of an executable or a debug file.
#[derive(Clone, Copy)]
pub struct Compilations<'a> {
    debug_info: &'a [u8],
    debug_abbrev: &'a [u8],
    debug_str: &'a [u8],
}

impl<'a> Entry<'a> {
    /// Whether the entry is that of the line table at a place of `.debug_line`.
    #[tactic(auto, unfolding(crate::specs::UnitFinding::table_of))]
    fn has_table(&self, place: u64) -> bool
        ensures { result ≡ spec.has_table place (entry_view self.now) }
    {
        let Some(attribute) = self.attribute(DW_AT_STMT_LIST) else {
            return false;
        };
        match attribute.place(self.version) {
            Some(found) => found == place,
            None => false,
        }
    }

    /// The directory of the compilation.
    #[tactic(auto, unfolding(crate::specs::UnitFinding::directory_of))]
    fn directory(&self, debug_str: &'a [u8]) -> Option<&'a [u8]>
        ensures { option_map (λ d. d.now) result ≡ spec.directory_of debug_str.now (entry_view self.now) }
    {
        let directory = self.attribute(DW_AT_COMP_DIR)?.text(debug_str)?;
        if directory.is_empty() {
            return None;
        }
        Some(directory)
    }
}

impl<'a> Compilations<'a> {
    ghost use Rattle.line_tables.specs.UnitFindingWords.{compilations_view};

    /// The compilations in the bytes of the sections `.debug_info`, `.debug_abbrev` and `.debug_str`; empty if a file does not
    /// have one of them.
    pub fn new(
        debug_info: &'a [u8],
        debug_abbrev: &'a [u8],
        debug_str: &'a [u8],
    ) -> Compilations<'a>
        ensures { compilations_view result ≡ spec.sections debug_info.now debug_abbrev.now debug_str.now }
    {
        Compilations {
            debug_info,
            debug_abbrev,
            debug_str,
        }
    }

    /// The first entry of a unit.
    fn entry(&self, unit: &Unit<'a>) -> Option<Entry<'a>>
        ensures { option_map entry_view result ≡ spec.entry_of (compilations_view self.now) (unit_view unit.now) }
    {
        Entry::read(self.debug_abbrev, unit.bytes?)
    }

    /// The directory of the compilation that the line table at a place of `.debug_line` comes from: that of the first unit of
    /// versions 2 to 4 whose DW_AT_stmt_list is the place. A unit with a fault provides nothing. It takes no memory.
    #[tactic(auto, unfolding(crate::specs::UnitFinding::directory))]
    pub fn directory(&self, place: u64) -> Option<&'a [u8]>
        ensures { option_map (λ d. d.now) result ≡ spec.directory (compilations_view self.now) place }
    {
        let mut units = Units::of(self.debug_info);
        while let Some(unit) = units.next() {
            let Some(entry) = self.entry(&unit) else {
                continue;
            };
            if entry.has_table(place) {
                return entry.directory(self.debug_str);
            }
        }
        None
    }
}
