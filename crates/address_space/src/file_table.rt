// The mapped files by address, if no two entries of NT_FILE have an address in common.
ghost use Rattle.std.specs.Prelude.{◌≡◌, ◌^◌, ◌<◌, ◌≤◌, ◌↔◌, ℕ, All, map, length, IfOk, IfSome, IsSome, slice_get};
ghost use Rattle.std.specs.List.Sorted.{IsPermutation};
ghost use Rattle.std.specs.Option.{option_map, ForSome};
ghost use Rattle.core_notes.specs.FileList.{FileView};
ghost use Rattle.core_notes.specs.FileWords.{file_view};
ghost use Rattle.address_space.specs.Source as source;
ghost use Rattle.address_space.specs.Disjoint.{AreFilesDisjoint, file_extent, taking_from};
ghost use Rattle.address_space.specs.MappedFiles.{files_in};
ghost use Rattle.address_space.specs.Ranges.{IsAlike};
ghost use Rattle.address_space.specs.ScanWords.{row_view};

use crate::row::{Row, file_rows};
use crate::table::Table;
use core_notes::{FileMap, Files};
use std::alloc::{AllocError, Global};

/// The mapped files, in the order of NT_FILE, and a table of their addresses.
#[derive(Drop)]
pub(crate) struct FileTable<'a> {
    pub(crate) maps: Vec<FileMap<'a>>,
    pub(crate) table: Table,
    /// Its rows are those of the files that have addresses.
    ghost whole: { ∥ IsPermutation (taking_from 0 (map file_extent (map file_view maps.items)))
        (map row_view table.rows.items) ∥₁ },
}

impl<'a> FileTable<'a> {
    /// The mapped files, which a core need not list, and their rows.
    pub(crate) fn listed(
        alloc: Global,
        files: Option<Files<'a>>,
    ) -> Result<(Vec<FileMap<'a>>, Vec<Row>), AllocError>
        ensures maps { IfOk result (λ v. map file_view v.0.items ≡ files_in files.entry) }
        ensures rows { IfOk result (λ v. map row_view v.1.items
            ≡ taking_from 0 (map file_extent (map file_view v.0.items))) }
        ensures fits { IfOk result (λ v. All (λ f. f.past < 2 ^ 64) v.0.items) }
    {
        match files {
            Some(files) => file_rows(alloc, files.maps()),
            None => Ok((Vec::new(alloc), Vec::new(alloc))),
        }
    }

    /// The table of a core's mapped files. There is no table if two of them have an address in common. The only error is
    /// that there is no memory for it.
    pub(crate) fn of(
        alloc: Global,
        files: Option<Files<'a>>,
    ) -> Result<Option<FileTable<'a>>, AllocError>
        ensures maps { IfOk result (λ t. ForSome t (λ t. map file_view t.maps.items ≡ files_in files.entry)) }
        ensures there { IfOk result (λ t. IsSome t ↔ AreFilesDisjoint (files_in files.entry)) }
    {
        let (maps, rows) = FileTable::listed(alloc, files)?;
        match Table::of(rows) {
            Some(table) => Ok(Some(FileTable { maps, table })),
            None => Ok(None),
        }
    }

    /// The mapped file of that number.
    fn map_at(&self, number: u64) -> Option<FileMap<'a>>
        ensures { option_map file_view result ≡ slice_get (map file_view self.now.maps.items) number }
    {
        self.maps.get(number as usize).copied()
    }

    /// The mapped file at the address `at`, and how many addresses of the `limit` from there on the same entry maps.
    pub(crate) fn find(&self, at: u64, limit: u64) -> (Option<FileMap<'a>>, u64)
        requires { 0 < limit }
        ensures first { option_map file_view result.0 ≡ option_map (λ (e : ℕ × FileView). e.1)
            (source.first_from (source.is_mapping at) 0 (map file_view self.now.maps.items)) }
        ensures alike { IsAlike (λ a. source.first_from (source.is_mapping a) 0 (map file_view self.now.maps.items))
            at limit result.1 }
        ensures maps { IfSome result.0 (λ f. (f.start ≤ at) × (at < f.past)) }
    {
        let (row, length) = self.table.find(at, limit);
        match row {
            Some(row) => (self.map_at(row.number), length),
            None => (None, length),
        }
    }
}
