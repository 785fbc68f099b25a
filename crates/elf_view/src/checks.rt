// The checks that an image passes before anything of it is shown, in their order.
ghost use Rattle.std.specs.Prelude.{◌≡◌, ◌+◌, ◌*◌, ◌^◌, ◌≤◌, ◌<◌, ◌++◌, List, Some, ℕ, drop, length, OnOk, IfOk, MatchResult};
ghost use Rattle.std.specs.Result.{result_err};
ghost use Rattle.elf_view.specs.Header as spec;
ghost use Rattle.elf_view.specs.NoteList as notes;
ghost use Rattle.elf_view.specs.SegmentWords.{segment_view, segments_left};
ghost use Rattle.elf_view.specs.Sound as sound;

use crate::faults::{ElfFault, ElfField, Want};
use crate::note_lists::{behind_first, padded};
use crate::numbers::{u16_at, u32_at, u64_at};
use crate::program_headers::{PT_NOTE, Segment, Segments};

// e_ident: where the class, the byte order and the version are, and their values for ELF64 in little-endian.
const EI_CLASS: usize = 4;

const EI_DATA: usize = 5;

const EI_VERSION: usize = 6;

const ELFCLASS64: u8 = 2;

const ELFDATA2LSB: u8 = 1;

// e_version, and e_ident's.
const EV_CURRENT: u8 = 1;

// e_type: an executable, one that is loaded anywhere, and a core file.
const ET_EXEC: u16 = 2;

const ET_DYN: u16 = 3;

const ET_CORE: u16 = 4;

// e_machine: RISC-V.
const EM_RISCV: u16 = 243;

/// e_phnum if the number of program headers is in section header 0.
const PN_XNUM: u16 = 0xffff;

/// The bytes of e_ident.
fn check_ident(image: &[u8]) -> Result<(), ElfField>
    ensures fault { result_err result ≡ sound.first_failing (sound.ident_checks image.now) }
    ensures whole { OnOk result (64 ≤ length image.now) }
{
    if image.len() < 64 {
        return Err(ElfField::Length);
    }
    if !image.starts_with(b"\x7fELF") {
        return Err(ElfField::Magic);
    }
    if image[EI_CLASS] != ELFCLASS64 {
        return Err(ElfField::EiClass);
    }
    if image[EI_DATA] != ELFDATA2LSB {
        return Err(ElfField::EiData);
    }
    if image[EI_VERSION] != EV_CURRENT {
        return Err(ElfField::EiVersion);
    }
    Ok(())
}

/// Whether e_type is not that of the wanted kind of file.
fn is_other_type(want: Want, kind: u16) -> bool
    ensures { result ≡ sound.is_other_type want kind }
{
    match want {
        Want::Core => kind != ET_CORE,
        Want::Exec => kind != ET_EXEC && kind != ET_DYN,
    }
}

/// The kind of file, its machine and its version.
fn check_kind(image: &[u8], want: Want) -> Result<(), ElfField>
    requires { 64 ≤ length image.now }
    ensures { result_err result ≡ sound.first_failing (sound.kind_checks want image.now) }
{
    if is_other_type(want, u16_at(image, 16)) {
        return Err(ElfField::EType);
    }
    if u16_at(image, 18) != EM_RISCV {
        return Err(ElfField::EMachine);
    }
    if u32_at(image, 20) != u32::from(EV_CURRENT) {
        return Err(ElfField::EVersion);
    }
    Ok(())
}

/// Whether `size` bytes from place `at` on lie in the image.
pub(crate) fn is_within(image: &[u8], at: u64, size: u64) -> bool
    ensures { result ≡ sound.is_within image.now at size }
{
    at.checked_add(size)
        .is_some_and(|end| end <= image.len() as u64)
}

/// The number of program headers.
#[tactic(auto, unfolding(crate::specs::Header::segment_count))]
pub(crate) fn segment_count(image: &[u8]) -> u64
    requires header { 64 ≤ length image.now }
    requires section_zero { spec.e_phnum image.now ≡ 65535 → spec.e_shoff image.now + 64 ≤ length image.now }
    ensures count { result ≡ spec.segment_count image.now }
    ensures small { result < 2 ^ 32 }
{
    let count = u16_at(image, 56);
    if count == PN_XNUM {
        u64::from(u32_at(image, u64_at(image, 40) as usize + 44))
    } else {
        u64::from(count)
    }
}

/// The sizes and places of the tables.
fn check_tables(image: &[u8]) -> Result<(), ElfField>
    requires { 64 ≤ length image.now }
    ensures fault { result_err result ≡ sound.first_failing (sound.table_checks image.now) }
    ensures whole { OnOk result (sound.IsHeaderWhole image.now) }
{
    let told = u16_at(image, 56);
    if told != 0 && u16_at(image, 54) != 56 {
        return Err(ElfField::EPhentsize);
    }
    let sections = u64_at(image, 40);
    if told == PN_XNUM && (sections == 0 || !is_within(image, sections, 64)) {
        return Err(ElfField::EShoff);
    }
    let count = segment_count(image);
    if count != 0 && !is_within(image, u64_at(image, 32), 56 * count) {
        return Err(ElfField::EPhoff);
    }
    Ok(())
}

/// The header's checks.
fn check_fields(image: &[u8], want: Want) -> Result<(), ElfField>
    ensures fault { result_err result ≡ sound.first_failing (sound.header_checks want image.now) }
    ensures whole { OnOk result (sound.IsHeaderWhole image.now) }
{
    check_ident(image)?;
    check_kind(image, want)?;
    check_tables(image)?;
    Ok(())
}

/// The header's checks, with their fault.
fn check_header(image: &[u8], want: Want) -> Result<(), ElfFault>
    ensures fault { result_err result ≡ sound.header_fault want image.now }
    ensures whole { OnOk result (sound.IsHeaderWhole image.now) }
{
    match check_fields(image, want) {
        Ok(()) => Ok(()),
        Err(field) => Err(ElfFault { field, index: 0 }),
    }
}

/// The checks of one program header.
fn check_segment(image: &[u8], want: Want, segment: Segment<'_>) -> Result<(), ElfField>
    ensures { result_err result
        ≡ sound.first_failing (sound.segment_checks want image.now (segment_view segment.entry)) }
{
    let loads = segment.is_load();
    if loads && segment.filesz > segment.memsz {
        return Err(ElfField::PFilesz);
    }
    if loads && segment.past() > 1 << 64 {
        return Err(ElfField::PMemsz);
    }
    if want == Want::Core
        && segment.kind == PT_NOTE
        && !is_within(image, segment.offset, segment.filesz)
    {
        return Err(ElfField::POffset);
    }
    Ok(())
}

/// The checks of each program header, in table order.
fn check_segments(image: &[u8], want: Want) -> Result<(), ElfFault>
    requires { sound.IsHeaderWhole image.now }
    ensures { result_err result ≡ sound.segment_fault want image.now }
{
    let mut segments = Segments::new(image, 0, segment_count(image));
    let mut index: u64 = 0;
    while let Some(segment) = segments.next() {
        match check_segment(image, want, segment) {
            Ok(()) => {}
            Err(field) => return Err(ElfFault { field, index }),
        }
        index = index.saturating_add(1);
    }
    Ok(())
}

/// The checks of the note at the front of the bytes. Returns the bytes that are left after it.
#[tactic(auto, unfolding(crate::specs::NoteList::note_len))]
fn check_note(bytes: &[u8]) -> Result<&[u8], ElfField>
    ensures fault { result_err result ≡ sound.first_failing (sound.note_checks bytes.now) }
    ensures behind { IfOk result (λ rest. rest.now ≡ drop (notes.note_len bytes.now) bytes.now) }
{
    if bytes.len() < 12 {
        return Err(ElfField::NNamesz);
    }
    let desc_at = 12 + padded(u32_at(bytes, 0));
    let length = bytes.len() as u64;
    if length < desc_at {
        return Err(ElfField::NNamesz);
    }
    if length < desc_at + u64::from(u32_at(bytes, 4)) {
        return Err(ElfField::NDescsz);
    }
    Ok(behind_first(bytes))
}

/// The checks of the notes in a segment's bytes, the first of which has number `index`. It answers the number after the
/// last.
fn check_note_list(bytes: &[u8], index: u64) -> Result<u64, ElfFault>
    ensures { (others : List (List ℕ)) → MatchResult result
        (λ next. sound.first_fault_among sound.note_checks index (notes.note_rests bytes.now ++ others)
        ≡ sound.first_fault_among sound.note_checks next others)
        (λ fault. sound.first_fault_among sound.note_checks index (notes.note_rests bytes.now ++ others)
        ≡ Some fault) }
{
    let mut rest = bytes;
    let mut index = index;
    while !rest.is_empty() {
        match check_note(rest) {
            Ok(behind) => rest = behind,
            Err(field) => return Err(ElfFault { field, index }),
        }
        index = index.saturating_add(1);
    }
    Ok(index)
}

/// The checks of each note of a core, in the order of the PT_NOTE segments.
fn check_core_notes(image: &[u8]) -> Result<(), ElfFault>
    requires { sound.IsHeaderWhole image.now }
    ensures { result_err result ≡ sound.note_fault Want.Core image.now }
{
    let mut segments = Segments::new(image, 0, segment_count(image));
    let mut index: u64 = 0;
    while let Some(segment) = segments.next() {
        index = check_note_list(segment.note_bytes(), index)?;
    }
    Ok(())
}

/// The checks of the notes, of which an executable has none to check.
fn check_notes(image: &[u8], want: Want) -> Result<(), ElfFault>
    requires { sound.IsHeaderWhole image.now }
    ensures { result_err result ≡ sound.note_fault want image.now }
{
    match want {
        Want::Core => check_core_notes(image),
        Want::Exec => Ok(()),
    }
}

/// All checks of an image, in their order.
#[tactic(auto, unfolding(crate::specs::Sound::first_fault))]
pub(crate) fn check(image: &[u8], want: Want) -> Result<(), ElfFault>
    ensures fault { result_err result ≡ sound.first_fault want image.now }
    ensures whole { OnOk result (sound.IsHeaderWhole image.now) }
{
    check_header(image, want)?;
    check_segments(image, want)?;
    check_notes(image, want)?;
    Ok(())
}
