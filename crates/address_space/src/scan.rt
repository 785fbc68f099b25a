// The first segment, or mapped file, at an address, by a scan of the table in order.
ghost use Rattle.std.specs.Prelude.{◌≡◌, ◌+◌, ◌-◌, ◌^◌, ◌<◌, ◌≤◌, ◌&&◌, ℕ, length, min, nat_le, nat_lt, if◌then◌else◌, Option, IfSome};
ghost use Rattle.std.specs.Option.{option_map};
ghost use Rattle.elf_view.specs.SegmentWords.{segment_view, segments_left};
ghost use Rattle.core_notes.specs.FileList.{FileView};
ghost use Rattle.core_notes.specs.FileWords.{file_view, files_left};
ghost use Rattle.address_space.specs.Source as source;
ghost use Rattle.address_space.specs.Ranges.{IsAlike};
ghost use Rattle.address_space.specs.ScanWords.{decided_view};

use core_notes::{FileMap, FileMaps};
use elf_view::{Segment, Segments};

/// A segment with its number in the table.
#[derive(Clone, Copy)]
pub(crate) struct Decided<'a> {
    pub number: u64,
    pub segment: Segment<'a>,
}

/// How many addresses a program header takes.
pub(crate) fn span(segment: &Segment) -> u64
    ensures { result ≡ source.span (segment_view segment.now) }
{
    if segment.is_load() { segment.memsz } else { 0 }
}

/// Whether `at` is one of the `size` addresses from `start` on.
fn is_within(start: u64, size: u64, at: u64) -> bool
    ensures { result ≡ (nat_le start at && nat_lt at (start + size)) }
{
    start <= at && at - start < size
}

/// How many of `length` addresses from `at` on come before the `size` addresses from `start` on, which don't have `at`.
fn narrowed(start: u64, size: u64, at: u64, length: u64) -> u64
    ensures { result ≡ (if nat_lt at start && nat_lt 0 size then min length (start - at) else length) }
{
    if at < start && size > 0 {
        length.min(start - at)
    } else {
        length
    }
}

/// The segment that decides the address `at`, and how many addresses of the `limit` from there on it decides too.
pub(crate) fn first_segment<'a>(
    mut segments: Segments<'a>,
    at: u64,
    limit: u64,
) -> (Option<Decided<'a>>, u64)
    requires some { 0 < limit }
    requires few { length (segments_left segments) < 2 ^ 32 }
    ensures first { option_map decided_view result.0
        ≡ source.first_from (source.is_covering at) 0 (segments_left segments.entry) }
    ensures alike { IsAlike (λ a. source.first_from (source.is_covering a) 0 (segments_left segments.entry))
        at limit result.1 }
    ensures covers { IfSome result.0 (λ d. d.segment.vaddr ≤ at) }
{
    let mut number = 0;
    let mut length = limit;
    while let Some(segment) = segments.next() {
        let size = span(&segment);
        if is_within(segment.vaddr, size, at) {
            let left = size - (at - segment.vaddr);
            return (Some(Decided { number, segment }), length.min(left));
        }
        length = narrowed(segment.vaddr, size, at, length);
        number += 1;
    }
    (None, length)
}

/// The mapped file at the address `at`, and how many addresses of the `limit` from there on the same entry maps.
pub(crate) fn first_file<'a>(
    mut files: FileMaps<'a>,
    at: u64,
    limit: u64,
) -> (Option<FileMap<'a>>, u64)
    requires { 0 < limit }
    ensures first { option_map file_view result.0
        ≡ option_map (λ (e : ℕ × FileView). e.1) (source.first_from (source.is_mapping at) 0 (files_left files.entry)) }
    ensures alike { IsAlike (λ a. source.first_from (source.is_mapping a) 0 (files_left files.entry)) at limit result.1 }
    ensures maps { IfSome result.0 (λ f. (f.start ≤ at) × (at < f.past)) }
{
    let mut length = limit;
    while let Some(file) = files.next() {
        let size = file.past - file.start;
        if is_within(file.start, size, at) {
            let left = size - (at - file.start);
            return (Some(file), length.min(left));
        }
        length = narrowed(file.start, size, at, length);
    }
    (None, length)
}
