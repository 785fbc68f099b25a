// How many addresses from one on have one place, and their content.
ghost use Rattle.std.specs.Prelude.{◌≡◌, ◌+◌, ◌-◌, ◌^◌, ◌<◌, ◌≤◌, ℕ, List, Some, IfSome, length, map, min, slice_get};
ghost use Rattle.std.specs.List.Sorted.{IsPermutation};
ghost use Rattle.std.specs.Option.{option_map};
ghost use Rattle.elf_view.specs.Field.{part};
ghost use Rattle.elf_view.specs.Header.{SegmentView, segments_of};
ghost use Rattle.elf_view.specs.SegmentWords.{segment_view};
ghost use Rattle.elf_view.specs.ViewWords.{image_of};
ghost use Rattle.core_notes.specs.FileList.{FileView};
ghost use Rattle.core_notes.specs.FileWords.{file_view};
ghost use Rattle.address_space.specs.Source as source;
ghost use Rattle.address_space.specs.Pieces.{content_from};
ghost use Rattle.address_space.specs.Disjoint.{segment_extent, taking_from};
ghost use Rattle.address_space.specs.Layers.{IsSheet, holder};
ghost use Rattle.address_space.specs.Ranges.{IsAlike, IsFull, IsStretch, place_number};
ghost use Rattle.address_space.specs.ScanWords.{decided_view, row_view};
ghost use Rattle.address_space.specs.SourceWords.{kind_view, spot_view};
ghost use Rattle.address_space.specs.Whole.{AreHeldWithin, IsFrontOf, filled, space_in};
ghost use Rattle.address_space.specs.StretchWords.{IsFrom, IsWithin, shown_in};

use crate::scan::{Decided, first_file, first_segment};
use crate::source::{FileSpot, PieceKind, StretchKind};
use crate::space::AddressSpace;
use crate::table::Table;
use core_notes::FileMap;
use elf_view::{Segment, a_sound_front_is_enough, part};

/// Addresses of one place.
#[derive(Clone, Copy)]
pub(crate) struct Located<'a> {
    /// The number of the segment that decides them.
    pub number: Option<u64>,
    /// How many there are.
    pub length: u64,
    /// Their content.
    pub kind: PieceKind<'a>,
}

/// Addresses of one place, and the place of their bytes in an image.
#[derive(Clone, Copy)]
pub(crate) struct Placed<'a> {
    /// The number of the segment that decides them.
    pub number: Option<u64>,
    /// How many there are.
    pub length: u64,
    /// The place of their bytes.
    pub kind: StretchKind<'a>,
}

/// How many bytes of the segment's file range lie in an image of `size` bytes.
pub(crate) fn held(segment: &Segment<'_>, size: u64) -> u64
    ensures { result ≡ min segment.now.filesz (size - segment.now.offset) }
{
    segment.filesz.min(size.saturating_sub(segment.offset))
}

/// The bytes of addresses of one place, in the image that has them.
fn read_in<'a>(image: &'a [u8], length: u64, kind: StretchKind<'a>) -> PieceKind<'a>
    ensures { kind_view result ≡ shown_in image.now length kind.entry }
{
    match kind {
        StretchKind::Core { offset } => PieceKind::Bytes(part(image, offset, length)),
        StretchKind::FromFile(bytes) => PieceKind::FromFile(bytes),
        StretchKind::NotDumped(spot) => PieceKind::NotDumped(spot),
        StretchKind::Cut => PieceKind::Cut,
        StretchKind::Unmapped => PieceKind::Unmapped,
    }
}

impl<'a> AddressSpace<'a> {
    ghost use Rattle.address_space.specs.SpaceWords.{space_of};

    /// The image of the executable that is attached for the file of that name.
    #[tactic(auto, unfolding(crate::specs::SpaceWords::space_of, crate::specs::Source::executable_named))]
    fn image_named(&self, name: &[u8]) -> Option<&'a [u8]>
        ensures { option_map (λ image. image.now) result
            ≡ option_map (λ (x : source.ExecutableView). x.image) (source.executable_named (space_of self.now) name.now) }
    {
        let executable = self.executables.named(name)?;
        Some(executable.image)
    }

    /// The content of addresses that the entry maps and the core has no bytes for, and how many of the `limit` have one
    /// place.
    fn locate_in_file(&self, file: FileMap<'a>, at: u64, limit: u64) -> (StretchKind<'a>, u64)
        requires some { 0 < limit }
        requires first { file.start ≤ at }
        requires last { at < file.past }
        ensures stretch { (i j : ℕ) → IsStretch (λ b. source.filed b i (j, file_view file.entry)
            (source.executable_named (space_of self.now) file.entry.name.now)) at limit result.1 }
        ensures content { (b : List ℕ) (i j : ℕ) → source.content_by (λ bytes k. part bytes k result.1) at
            (source.filed at i (j, file_view file.entry) (source.executable_named (space_of self.now) file.entry.name.now))
            ≡ shown_in b result.1 result.0 }
        ensures elsewhere { (size a : ℕ) (s : SegmentView) → IsFrom size s a result.1 result.0 }
        ensures full { (b : List ℕ) → IsFull result.1 (shown_in b result.1 result.0) }
    {
        let offset = file.offset + (at - file.start);
        if let Some(image) = self.image_named(file.name) {
            let size = image.len() as u64;
            if offset < size {
                let length = limit.min(size - offset);
                return (StretchKind::FromFile(part(image, offset, length)), length);
            }
        }
        let spot = FileSpot {
            name: file.name,
            offset,
        };
        (StretchKind::NotDumped(Some(spot)), limit)
    }

    /// The same as `file_at`, by a scan of the entries.
    #[tactic(auto, unfolding(crate::specs::SpaceWords::space_of, crate::specs::Source::entry_at))]
    fn scanned_file(&self, at: u64, limit: u64) -> (Option<FileMap<'a>>, u64)
        requires { 0 < limit }
        ensures first { option_map file_view result.0
            ≡ option_map (λ (e : ℕ × FileView). e.1) (source.entry_at (space_of self.now).files at) }
        ensures alike { IsAlike (source.entry_at (space_of self.now).files) at limit result.1 }
        ensures maps { IfSome result.0 (λ f. (f.start ≤ at) × (at < f.past)) }
    {
        match self.files {
            Some(files) => first_file(files.maps(), at, limit),
            None => (None, limit),
        }
    }

    /// The same as `file_at`, by a sheet or a scan of the entries.
    #[tactic(auto, unfolding(crate::specs::SpaceWords::space_of, crate::specs::Source::entry_at))]
    fn file_without_table(&self, at: u64, limit: u64) -> (Option<FileMap<'a>>, u64)
        requires { 0 < limit }
        ensures first { option_map file_view result.0
            ≡ option_map (λ (e : ℕ × FileView). e.1) (source.entry_at (space_of self.now).files at) }
        ensures alike { IsAlike (source.entry_at (space_of self.now).files) at limit result.1 }
        ensures maps { IfSome result.0 (λ f. (f.start ≤ at) × (at < f.past)) }
    {
        match &self.file_sheet {
            Some(sheet) => sheet.find(at, limit),
            None => self.scanned_file(at, limit),
        }
    }

    /// The mapped file at the address `at`, and how many addresses of the `limit` from there on the same entry maps.
    #[tactic(auto, unfolding(crate::specs::SpaceWords::space_of, crate::specs::Source::entry_at))]
    pub(crate) fn file_at(&self, at: u64, limit: u64) -> (Option<FileMap<'a>>, u64)
        requires { 0 < limit }
        ensures first { option_map file_view result.0
            ≡ option_map (λ (e : ℕ × FileView). e.1) (source.entry_at (space_of self.now).files at) }
        ensures alike { IsAlike (source.entry_at (space_of self.now).files) at limit result.1 }
        ensures maps { IfSome result.0 (λ f. (f.start ≤ at) × (at < f.past)) }
    {
        match &self.file_table {
            Some(table) => table.find(at, limit),
            None => self.file_without_table(at, limit),
        }
    }

    /// The segment of that number.
    fn segment_at(&self, number: u64) -> Option<Decided<'a>>
        ensures { option_map decided_view result ≡ option_map (λ (s : SegmentView). (number, s))
            (slice_get (segments_of (image_of self.now.elf)) number) }
    {
        let segment = self.elf.segment(number)?;
        Some(Decided { number, segment })
    }

    /// The segment that decides the address `at`, by a table of the segments.
    #[tactic(auto, unfolding(crate::specs::SpaceWords::space_of, crate::specs::Source::decider))]
    fn looked_up(&self, table: &Table, at: u64, limit: u64) -> (Option<Decided<'a>>, u64)
        requires some { 0 < limit }
        requires whole { ∥ IsPermutation (taking_from 0 (map segment_extent (segments_of (image_of self.now.elf))))
            (map row_view table.now.rows.items) ∥₁ }
        ensures first { option_map decided_view result.0 ≡ source.decider (space_of self.now) at }
        ensures alike { IsAlike (source.decider (space_of self.now)) at limit result.1 }
        ensures covers { IfSome result.0 (λ d. d.segment.vaddr ≤ at) }
    {
        let (row, length) = table.find(at, limit);
        match row {
            Some(row) => (self.segment_at(row.number), length),
            None => (None, length),
        }
    }

    /// The same, by a table of segments that may have addresses in common.
    #[tactic(auto, unfolding(crate::specs::SpaceWords::space_of, crate::specs::Source::decider))]
    fn looked_up_in_sheet(&self, sheet: &Table, at: u64, limit: u64) -> (Option<Decided<'a>>, u64)
        requires some { 0 < limit }
        requires laid { ∥ IsSheet sheet.now.rows.items ∥₁ }
        requires deciding { (a : ℕ) → holder sheet.now.rows.items a ≡ option_map (λ (d : ℕ × SegmentView). d.0)
            (source.first_from (source.is_covering a) 0 (segments_of (image_of self.now.elf))) }
        ensures first { option_map decided_view result.0 ≡ source.decider (space_of self.now) at }
        ensures alike { IsAlike (source.decider (space_of self.now)) at limit result.1 }
        ensures covers { IfSome result.0 (λ d. d.segment.vaddr ≤ at) }
    {
        let (row, length) = sheet.find(at, limit);
        match row {
            Some(row) => (self.segment_at(row.number), length),
            None => (None, length),
        }
    }

    /// The segment that decides the address `at`, by a sheet or a scan of the segments.
    #[tactic(auto, unfolding(crate::specs::SpaceWords::space_of, crate::specs::Source::decider))]
    fn decide_without_table(&self, at: u64, limit: u64) -> (Option<Decided<'a>>, u64)
        requires { 0 < limit }
        ensures first { option_map decided_view result.0 ≡ source.decider (space_of self.now) at }
        ensures alike { IsAlike (source.decider (space_of self.now)) at limit result.1 }
        ensures covers { IfSome result.0 (λ d. d.segment.vaddr ≤ at) }
    {
        match &self.sheet {
            Some(sheet) => self.looked_up_in_sheet(&sheet.table, at, limit),
            None => first_segment(self.elf.segments(), at, limit),
        }
    }

    /// The segment that decides the address `at`, and how many addresses of the `limit` from there on it decides too.
    #[tactic(auto, unfolding(crate::specs::SpaceWords::space_of, crate::specs::Source::decider))]
    pub(crate) fn decide(&self, at: u64, limit: u64) -> (Option<Decided<'a>>, u64)
        requires { 0 < limit }
        ensures first { option_map decided_view result.0 ≡ source.decider (space_of self.now) at }
        ensures alike { IsAlike (source.decider (space_of self.now)) at limit result.1 }
        ensures covers { IfSome result.0 (λ d. d.segment.vaddr ≤ at) }
    {
        match &self.table {
            Some(table) => self.looked_up(table, at, limit),
            None => self.decide_without_table(at, limit),
        }
    }

    /// The content of addresses of a segment that has no bytes for them, and how many of the `limit` have one place.
    fn locate_undumped(&self, at: u64, limit: u64) -> (StretchKind<'a>, u64)
        requires { 0 < limit }
        ensures stretch { (i : ℕ) → IsStretch (λ b. source.undumped (space_of self.now) b i
            (source.entry_at (space_of self.now).files b)) at limit result.1 }
        ensures content { (b : List ℕ) (i : ℕ) → source.content_by (λ bytes k. part bytes k result.1) at
            (source.undumped (space_of self.now) at i (source.entry_at (space_of self.now).files at)) ≡ shown_in b result.1 result.0 }
        ensures elsewhere { (size a : ℕ) (s : SegmentView) → IsFrom size s a result.1 result.0 }
        ensures full { (b : List ℕ) → IsFull result.1 (shown_in b result.1 result.0) }
    {
        let (file, length) = self.file_at(at, limit);
        match file {
            Some(file) => self.locate_in_file(file, at, length),
            None => (StretchKind::NotDumped(None), length),
        }
    }

    /// The place in an image of `size` bytes of the addresses that the segment decides, and how many of the `limit` are of
    /// one place.
    fn locate_within(
        &self,
        size: u64,
        segment: Segment<'a>,
        at: u64,
        limit: u64,
    ) -> (StretchKind<'a>, u64)
        requires some { 0 < limit }
        requires first { segment.vaddr ≤ at }
        ensures stretch { (b : List ℕ) (i : ℕ) → length b ≡ size → IsStretch (λ a. source.placed (space_of self.now) a
            (Some (i, filled b (segment_view segment.entry)))) at limit result.1 }
        ensures content { (b : List ℕ) (i : ℕ) → length b ≡ size → source.content_by (λ bytes k. part bytes k result.1) at
            (source.placed (space_of self.now) at (Some (i, filled b (segment_view segment.entry)))) ≡ shown_in b result.1 result.0 }
        ensures full { (b : List ℕ) → length b ≡ size → IsFull result.1 (shown_in b result.1 result.0) }
        ensures count { (0 < result.1) × (result.1 ≤ limit) }
        ensures from { IsFrom size (segment_view segment.entry) at result.1 result.0 }
    {
        let place = at - segment.vaddr;
        if place >= segment.filesz {
            return self.locate_undumped(at, limit);
        }
        let held = held(&segment, size);
        if place >= held {
            return (StretchKind::Cut, limit.min(segment.filesz - place));
        }
        let offset = segment.offset + place;
        (StretchKind::Core { offset }, limit.min(held - place))
    }

    /// The place in an image of `size` bytes, of which the space has the first, of addresses from `at` on, and how many of
    /// the `limit` are of one place.
    pub(crate) fn place(&self, size: u64, at: u64, limit: u64) -> Placed<'a>
        requires { 0 < limit }
        ensures stretch { (b : List ℕ) → IsFrontOf (image_of self.now.elf) size b
            → IsStretch (source.place_at (space_in b (space_of self.now))) at limit result.length }
        ensures number { (b : List ℕ) → IsFrontOf (image_of self.now.elf) size b
            → place_number (source.place_at (space_in b (space_of self.now)) at) ≡ result.number }
        ensures content { (b : List ℕ) → IsFrontOf (image_of self.now.elf) size b
            → content_from (space_in b (space_of self.now)) at result.length ≡ shown_in b result.length result.kind }
        ensures full { (b : List ℕ) → length b ≡ size → IsFull result.length (shown_in b result.length result.kind) }
        ensures count { (0 < result.length) × (result.length ≤ limit) }
        ensures held { (start past : ℕ) → AreHeldWithin size at limit start past (segments_of (image_of self.now.elf))
            → IsWithin start past result.length result.kind }
    {
        a_sound_front_is_enough();
        let (decided, length) = self.decide(at, limit);
        let Some(decided) = decided else {
            return Placed {
                number: None,
                length,
                kind: StretchKind::Unmapped,
            };
        };
        let (kind, length) = self.locate_within(size, decided.segment, at, length);
        Placed {
            number: Some(decided.number),
            length,
            kind,
        }
    }

    /// The content of addresses from `at` on, and how many of the `limit` have one place.
    pub(crate) fn locate(&self, at: u64, limit: u64) -> Located<'a>
        requires { 0 < limit }
        ensures stretch { IsStretch (source.place_at (space_of self.now)) at limit result.length }
        ensures number { place_number (source.place_at (space_of self.now) at) ≡ result.number }
        ensures content { content_from (space_of self.now) at result.length ≡ kind_view result.kind }
        ensures full { IsFull result.length (kind_view result.kind) }
    {
        let image = self.elf.image();
        let placed = self.place(image.len() as u64, at, limit);
        Located {
            number: placed.number,
            length: placed.length,
            kind: read_in(image, placed.length, placed.kind),
        }
    }

    /// The flags of the segment that decides the address: 1 is PF_X, 2 is PF_W, 4 is PF_R.
    pub fn flags(&self, at: u64) -> Option<u32>
        ensures { result ≡ option_map (λ (d : ℕ × SegmentView). d.1.flags) (source.decider (space_of self.now) at) }
    {
        let decided = self.decide(at, 1).0?;
        Some(decided.segment.flags)
    }

    /// Where the address lies in the file that is mapped there.
    pub fn spot(&self, at: u64) -> Option<FileSpot<'a>>
        ensures { option_map spot_view result ≡ source.spot_of at (source.entry_at (space_of self.now).files at) }
    {
        let file = self.file_at(at, 1).0?;
        Some(FileSpot {
            name: file.name,
            offset: file.offset + (at - file.start),
        })
    }
}
