// The address space of a core.
ghost use Rattle.std.specs.Prelude.{◌≡◌, ℕ, map};
ghost use Rattle.std.specs.List.Sorted.{IsPermutation};
ghost use Rattle.std.specs.Option.{ForSome, option_map};
ghost use Rattle.elf_view.specs.Header.{SegmentView, segments_of};
ghost use Rattle.elf_view.specs.ViewWords.{image_of};
ghost use Rattle.core_notes.specs.FileWords.{file_view};
ghost use Rattle.address_space.specs.Source.{first_from, is_covering};
ghost use Rattle.address_space.specs.Layers.{IsSheet, holder};
ghost use Rattle.address_space.specs.Orders.{IsOrderOf};
ghost use Rattle.address_space.specs.Disjoint.{segment_extent, taking_from};
ghost use Rattle.address_space.specs.MappedFiles.{files_in};
ghost use Rattle.address_space.specs.ScanWords.{row_view};

use crate::attached::{Attached, Executables};
use crate::file_sheet::FileSheet;
use crate::file_table::FileTable;
use crate::find::Matches;
use crate::mappings::Mappings;
use crate::pieces::Pieces;
use crate::row::segment_rows;
use crate::sheet::Sheet;
use crate::source::{PieceKind, Source};
use crate::stretches::Stretches;
use crate::strings::Strings;
use crate::table::Table;
use core_notes::Files;
use elf_view::Elf;
use std::alloc::{AllocError, Global};

/// The memory of a process, as described by its core.
#[derive(Drop)]
pub struct AddressSpace<'a> {
    pub(crate) elf: Elf<'a>,
    pub(crate) files: Option<Files<'a>>,
    pub(crate) executables: Executables<'a>,
    pub(crate) table: Option<Table>,
    pub(crate) file_table: Option<FileTable<'a>>,
    pub(crate) sheet: Option<Sheet>,
    pub(crate) file_sheet: Option<FileSheet<'a>>,
    /// Its rows are the program headers that take addresses.
    ghost whole: { ForSome table (λ t. ∥ IsPermutation (taking_from 0 (map segment_extent (segments_of (image_of elf))))
        (map row_view t.rows.items) ∥₁) },
    /// Its files are the entries of NT_FILE.
    ghost listed: { ForSome file_table (λ t. map file_view t.maps.items ≡ files_in files) },
    /// The files of a sheet are the entries of NT_FILE too.
    ghost files_listed: { ForSome file_sheet (λ s. map file_view s.maps.items ≡ files_in files) },
    /// Its rows are the addresses that the program headers decide.
    ghost laid: { ForSome sheet (λ s. ∥ IsSheet s.table.rows.items ∥₁) },
    ghost deciding: { ForSome sheet (λ s. (a : ℕ) → holder s.table.rows.items a
        ≡ option_map (λ (d : ℕ × SegmentView). d.0) (first_from (is_covering a) 0 (segments_of (image_of elf)))) },
    ghost ordered: { ForSome sheet (λ s. IsOrderOf (λ a. option_map (λ (d : ℕ × SegmentView). d.0)
        (first_from (is_covering a) 0 (segments_of (image_of elf)))) s.order.rows.items) },
}

impl<'a> AddressSpace<'a> {
    ghost use Rattle.std.specs.Prelude.{◌+◌, ◌^◌, ◌<◌, ◌≤◌, ◌↔◌, [], IfOk, IsTrue, OnErr, OnOk, length};
    ghost use Rattle.address_space.specs.Source.{source_at, mappings_of, with_executable};
    ghost use Rattle.address_space.specs.Disjoint.{AreDisjoint, AreFilesDisjoint};
    ghost use Rattle.address_space.specs.TableWords.{has_file_table, has_table};
    ghost use Rattle.address_space.specs.Pieces.{pieces_of};
    ghost use Rattle.address_space.specs.Occurrence.{occurrences, strings_of};
    ghost use Rattle.address_space.specs.SourceWords.{source_view};
    ghost use Rattle.address_space.specs.FindWords.{matches_left};
    ghost use Rattle.address_space.specs.StringWords.{strings_left};
    ghost use Rattle.address_space.specs.SpaceWords.{core_of, space_of, space_view};
    ghost use Rattle.address_space.specs.PieceWords.{pieces_left, mappings_left};
    ghost use Rattle.address_space.specs.StretchesWords.{AreLeft};

    /// The memory that the core's program headers describe, with the mapped files that its NT_FILE names. No executable
    /// is attached.
    #[tactic(auto, unfolding(crate::specs::SpaceWords::space_of))]
    pub fn new(alloc: Global, elf: &Elf<'a>, files: Option<Files<'a>>) -> AddressSpace<'a>
        ensures same { space_of result ≡ space_view elf.now files.entry [] }
        ensures core { core_of result ≡ image_of elf.now }
    {
        AddressSpace {
            elf: *elf,
            files,
            executables: Executables::new(alloc),
            table: None,
            file_table: None,
            sheet: None,
            file_sheet: None,
        }
    }

    /// Makes the same memory as `new`, with tables by which the segment and the file of an address are found in
    /// logarithmic time. If no two PT_LOADs have an address in common the table is that of the segments, sorted by
    /// address. If two have, it is a sheet: its rows are the addresses that each segment decides. The entries of NT_FILE
    /// have such tables too. The only error is that there is no memory for the tables.
    #[tactic(auto, unfolding(crate::specs::SpaceWords::space_of))]
    pub fn indexed(
        alloc: Global,
        elf: &Elf<'a>,
        files: Option<Files<'a>>,
    ) -> Result<AddressSpace<'a>, AllocError>
        ensures same { IfOk result (λ space. space_of space ≡ space_view elf.now files.entry []) }
        ensures core { IfOk result (λ space. core_of space ≡ image_of elf.now) }
        ensures table { IfOk result (λ space. IsTrue (has_table space) ↔ AreDisjoint (segments_of (image_of elf.now))) }
        ensures files { IfOk result (λ space. IsTrue (has_file_table space) ↔ AreFilesDisjoint (files_in files.entry)) }
    {
        let rows = segment_rows(alloc, elf.segments())?;
        let file_table = FileTable::of(alloc, files)?;
        let table = Table::of(rows);
        let sheet = Sheet::unless(table.is_some(), alloc, elf)?;
        let file_sheet = FileSheet::unless(file_table.is_some(), alloc, files)?;
        Ok(AddressSpace {
            elf: *elf,
            files,
            executables: Executables::new(alloc),
            table,
            file_table,
            sheet,
            file_sheet,
        })
    }

    /// Attaches an executable for the mapped file of that path, for addresses at which the core has no bytes. Of two with
    /// one path the first stays. If there is no memory nothing is attached.
    #[tactic(auto, unfolding(crate::specs::SpaceWords::space_of))]
    pub fn attach(&mut self, path: &'a [u8], elf: Elf<'a>) -> Result<(), AllocError>
        ensures ok { OnOk result (space_of self.new
            ≡ with_executable (space_of self.old) path.entry.now (image_of elf.entry)) }
        ensures err { OnErr result (space_of self.new ≡ space_of self.old) }
        ensures core { core_of self.new ≡ core_of self.old }
        ensures table { has_table self.new ≡ has_table self.old }
        ensures files { has_file_table self.new ≡ has_file_table self.old }
    {
        self.executables.push(Attached {
            path,
            image: elf.image(),
        })
    }

    /// The content of an address. The first segment, in table order, that covers it decides.
    pub fn at(&self, address: u64) -> Source<'a>
        ensures { source_view result ≡ source_at (space_of self.now) address }
    {
        match self.locate(address, 1).kind {
            PieceKind::Bytes(bytes) => Source::Byte(bytes[0]),
            PieceKind::FromFile(bytes) => Source::FromFile(bytes[0]),
            PieceKind::NotDumped(spot) => Source::NotDumped(spot),
            PieceKind::Cut => Source::Cut,
            PieceKind::Unmapped => Source::Unmapped,
        }
    }

    /// The pieces of `length` addresses from `first` on, in rising order: neighbours are in one piece if and only if kind,
    /// deciding segment and, for those without bytes in the core, the entry of NT_FILE are the same.
    pub fn pieces(&self, first: u64, length: u64) -> Pieces<'_, 'a>
        requires { first + length ≤ 2 ^ 64 }
        ensures { pieces_left result ≡ pieces_of (space_of self.now) first length }
    {
        Pieces::new(self, first, length)
    }

    /// The same, with places in the core's image instead of the bytes that the core has. The core may be only the first bytes of an
    /// image of `size` bytes. Each item gives the same piece for every such image.
    pub fn stretches(&self, size: u64, first: u64, length: u64) -> Stretches<'_, 'a>
        requires { first + length ≤ 2 ^ 64 }
        ensures { AreLeft (space_of self.now) (core_of self.now) size first length result }
    {
        Stretches::new(self, size, first, length)
    }

    /// Every address at which the bytes occur, by the number of the segment that decides it and then by itself.
    pub fn find<'n>(&self, needle: &'n [u8]) -> Matches<'_, 'a, 'n>
        requires { 0 < length needle.now }
        ensures { matches_left result ≡ occurrences (space_of self.now) needle.now }
    {
        Matches::new(self, needle)
    }

    /// The texts, each as long as it can be, of at least `least` bytes: first address and length, ordered by their first
    /// addresses like matches. Bytes of text are those from the space to `~` and the tab.
    pub fn strings(&self, least: u64) -> Strings<'_, 'a>
        ensures { strings_left result ≡ strings_of (space_of self.now) least }
    {
        Strings::new(self, least)
    }

    /// The mappings, one for each PT_LOAD, in table order.
    pub fn mappings(&self) -> Mappings<'_, 'a>
        ensures { mappings_left result ≡ mappings_of (space_of self.now) }
    {
        Mappings {
            space: self,
            loads: self.elf.loads(),
        }
    }
}
