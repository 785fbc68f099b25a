// The mapped files by address, if entries of NT_FILE may have addresses in common.
ghost use Rattle.std.specs.Prelude.{not, is_some, ◌≡◌, ◌<◌, ◌≤◌, ℕ, map, length, IfOk, IfSome, slice_get};
ghost use Rattle.std.specs.Option.{option_map, ForSome};
ghost use Rattle.core_notes.specs.FileList.{FileView};
ghost use Rattle.core_notes.specs.FileWords.{file_view};
ghost use Rattle.address_space.specs.Source as source;
ghost use Rattle.address_space.specs.MappedFiles.{files_in};
ghost use Rattle.address_space.specs.Ranges.{IsAlike};
ghost use Rattle.address_space.specs.Layers.{IsSheet, holder};

use crate::file_table::FileTable;
use crate::table::Table;
use core_notes::{FileMap, Files};
use std::alloc::{AllocError, Global};

/// The mapped files, in the order of NT_FILE, and the addresses at which each entry is the first that maps them.
#[derive(Drop)]
pub(crate) struct FileSheet<'a> {
    pub(crate) maps: Vec<FileMap<'a>>,
    pub(crate) table: Table,
    ghost laid: { ∥ IsSheet table.rows.items ∥₁ },
    /// Its rows are the addresses of the first entries that map them.
    ghost first: { (a : ℕ) → holder table.rows.items a ≡ option_map (λ (e : ℕ × FileView). e.0)
        (source.first_from (source.is_mapping a) 0 (map file_view maps.items)) },
}

impl<'a> FileSheet<'a> {
    /// The sheet of a core's mapped files. The error is that there is no memory for it.
    fn of(alloc: Global, files: Option<Files<'a>>) -> Result<FileSheet<'a>, AllocError>
        ensures { IfOk result (λ s. map file_view s.maps.items ≡ files_in files.entry) }
    {
        let (maps, rows) = FileTable::listed(alloc, files)?;
        let table = Table::layered(alloc, &rows)?;
        Ok(FileSheet { maps, table })
    }

    /// The sheet of a core's mapped files, or `None` if they have a table. The only error is that there is no memory for it.
    pub(crate) fn unless(
        has_table: bool,
        alloc: Global,
        files: Option<Files<'a>>,
    ) -> Result<Option<FileSheet<'a>>, AllocError>
        ensures there { IfOk result (λ o. is_some o ≡ not has_table) }
        ensures maps { IfOk result (λ o. ForSome o (λ s. map file_view s.maps.items ≡ files_in files.entry)) }
    {
        if has_table {
            return Ok(None);
        }
        let sheet = FileSheet::of(alloc, files)?;
        Ok(Some(sheet))
    }

    /// The mapped file of that number.
    fn map_at(&self, number: u64) -> Option<FileMap<'a>>
        ensures { option_map file_view result ≡ slice_get (map file_view self.now.maps.items) number }
    {
        self.maps.get(number as usize).copied()
    }

    /// The mapped file at the address `at`, and how many addresses of the `limit` from there on the same entry maps.
    pub(crate) fn find(&self, at: u64, limit: u64) -> (Option<FileMap<'a>>, u64)
        requires { 0 < limit }
        ensures first { option_map file_view result.0 ≡ option_map (λ (e : ℕ × FileView). e.1)
            (source.first_from (source.is_mapping at) 0 (map file_view self.now.maps.items)) }
        ensures alike { IsAlike (λ a. source.first_from (source.is_mapping a) 0 (map file_view self.now.maps.items))
            at limit result.1 }
        ensures maps { IfSome result.0 (λ f. (f.start ≤ at) × (at < f.past)) }
    {
        let (row, length) = self.table.find(at, limit);
        match row {
            Some(row) => (self.map_at(row.number), length),
            None => (None, length),
        }
    }
}
