// The facts about addresses in the notes and the program headers of a core.
ghost use Rattle.std.specs.Prelude.{◌≡◌, ◌==◌, find, is_some};
ghost use Rattle.std.specs.Option.{option_map};
ghost use Rattle.core_notes.specs.DescriptorWords.{pairs_left};
ghost use Rattle.core_notes.specs.FileList.{is_mapping};
ghost use Rattle.core_notes.specs.FileWords.{file_view, files_left};
ghost use Rattle.core_notes.specs.declared.auxiliary.AuxvPair as pairs;
ghost use Rattle.crash_signatures.specs.WordViews.{file_said};
ghost use Rattle.elf_view.specs.SegmentWords.{segment_view, segments_left};
ghost use Rattle.image_replies.specs.CoreWords.{core_bytes};
ghost use Rattle.core_crashes.specs.Notes as spec;

use core_notes::{AuxvPairs, FileMap, FileMaps};
use crash_signatures::MappedFile;
use elf_view::{Segment, Segments};
use image_replies::CoreImage;

// AT_SYSINFO_EHDR: the address at which the vdso begins.
const AT_SYSINFO_EHDR: u64 = 33;

// The first value of a kind among pairs of an auxiliary vector.
fn value_among(pairs: AuxvPairs<'_>, kind: u64) -> Option<u64>
    ensures { result ≡ spec.value_among kind (pairs_left pairs.entry) }
{
    let mut rest = pairs;
    while let Some(pair) = rest.next() {
        if pair.kind == kind {
            return Some(pair.value);
        }
    }
    None
}

// The first value of a kind in a core's auxiliary vector.
pub(crate) fn auxiliary_value(core: &CoreImage<'_>, kind: u64) -> Option<u64>
    ensures { result ≡ spec.auxiliary_value kind (core_bytes core.now) }
{
    let vector = core.notes().auxv()?;
    value_among(vector.pairs(), kind)
}

// The first of these files that is mapped at an address.
fn map_among<'a>(maps: FileMaps<'a>, address: u64) -> Option<FileMap<'a>>
    ensures { option_map file_view result ≡ find (is_mapping address) (files_left maps.entry) }
{
    let mut rest = maps;
    while let Some(map) = rest.next() {
        if map.start <= address && address < map.past {
            return Some(map);
        }
    }
    None
}

// The file that is mapped at an address, by NT_FILE.
pub(crate) fn file_at<'a>(core: &CoreImage<'a>, address: Option<u64>) -> Option<MappedFile<'a>>
    ensures { option_map file_said result ≡ spec.file_at (core_bytes core.now) address }
{
    let address = address?;
    let files = core.notes().files()?;
    let map = map_among(files.maps(), address)?;
    Some(MappedFile {
        path: map.name,
        start: map.start,
        offset: map.offset,
    })
}

// Whether the core says which files are mapped.
pub(crate) fn has_files(core: &CoreImage<'_>) -> bool
    ensures { result ≡ spec.has_files (core_bytes core.now) }
{
    core.notes().files().is_some()
}

// The first PT_LOAD that begins at an address.
fn load_among<'a>(segments: Segments<'a>, start: u64) -> Option<Segment<'a>>
    ensures { option_map segment_view result ≡ find (spec.is_load_at start) (segments_left segments.entry) }
{
    let mut rest = segments;
    while let Some(segment) = rest.next() {
        if segment.is_load() && segment.vaddr == start {
            return Some(segment);
        }
    }
    None
}

// The PT_LOAD of the vdso, if the core's auxiliary vector says where that begins.
pub(crate) fn vdso_of<'a>(core: &CoreImage<'a>) -> Option<Segment<'a>>
    ensures { option_map segment_view result ≡ spec.vdso_of (core_bytes core.now) }
{
    let start = auxiliary_value(core, AT_SYSINFO_EHDR)?;
    load_among(core.elf().segments(), start)
}

// Whether an address is in the vdso.
pub(crate) fn is_in_vdso(vdso: &Option<Segment<'_>>, address: Option<u64>) -> bool
    ensures { result ≡ spec.is_in_vdso (option_map segment_view vdso.now) address }
{
    match (vdso, address) {
        (Some(vdso), Some(address)) => vdso.covers(address),
        _ => false,
    }
}
