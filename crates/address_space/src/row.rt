// The addresses of program headers and of mapped files, with their numbers.
ghost use Rattle.std.specs.Prelude.{◌≡◌, ◌+◌, ◌^◌, ◌<◌, List, [], ◌++◌, ◌∷◌, map, filter, length, All, IfOk, OnOk};
ghost use Rattle.elf_view.specs.SegmentWords.{segments_left};
ghost use Rattle.core_notes.specs.FileWords.{file_view, files_left};
ghost use Rattle.address_space.specs.Disjoint.{file_extent, segment_extent, takes_addresses, taking_from};
ghost use Rattle.address_space.specs.ScanWords.{row_view};

use crate::scan::span;
use core_notes::{FileMap, FileMaps};
use elf_view::Segments;
use std::alloc::{AllocError, Global};

/// Addresses in a row, of a program header or an entry of NT_FILE.
#[derive(Clone, Copy)]
pub(crate) struct Row {
    /// The number of the header or the entry.
    pub number: u64,
    /// The first address.
    pub start: u64,
    /// How many there are.
    pub size: u64,
}

/// Puts a row after the others, if it has addresses.
fn add(rows: &mut Vec<Row>, row: Row) -> Result<(), AllocError>
    ensures { OnOk result (map row_view rows.new.items
        ≡ map row_view rows.old.items ++ filter takes_addresses (row_view row ∷ [])) }
{
    if row.size > 0 {
        rows.push(row)?;
    }
    Ok(())
}

/// The rows of the program headers that take addresses, in their order.
pub(crate) fn segment_rows(
    alloc: Global,
    mut segments: Segments<'_>,
) -> Result<Vec<Row>, AllocError>
    requires { length (segments_left segments) < 2 ^ 32 }
    ensures { IfOk result (λ v. map row_view v.items
        ≡ taking_from 0 (map segment_extent (segments_left segments.entry))) }
{
    let mut rows = Vec::new(alloc);
    let mut number = 0;
    while let Some(segment) = segments.next() {
        let row = Row {
            number,
            start: segment.vaddr,
            size: span(&segment),
        };
        add(&mut rows, row)?;
        number += 1;
    }
    Ok(rows)
}

/// The row of a mapped file of that number.
fn file_row(number: u64, file: FileMap) -> Row
    ensures row { row_view result ≡ (number, file_extent (file_view file.entry)) }
    ensures fits { file.entry.past < 2 ^ 64 }
{
    Row {
        number,
        start: file.start,
        size: file.past - file.start,
    }
}

/// The mapped files, and the rows of those that have addresses, in their order.
pub(crate) fn file_rows<'a>(
    alloc: Global,
    mut files: FileMaps<'a>,
) -> Result<(Vec<FileMap<'a>>, Vec<Row>), AllocError>
    ensures maps { IfOk result (λ v. map file_view v.0.items ≡ files_left files.entry) }
    ensures rows { IfOk result (λ v. map row_view v.1.items
        ≡ taking_from 0 (map file_extent (files_left files.entry))) }
    ensures fits { IfOk result (λ v. All (λ f. f.past < 2 ^ 64) v.0.items) }
{
    let mut maps = Vec::new(alloc);
    let mut rows = Vec::new(alloc);
    while let Some(file) = files.next() {
        let row = file_row(maps.len() as u64, file);
        add(&mut rows, row)?;
        maps.push(file)?;
    }
    Ok((maps, rows))
}
