//! Images made from parts, and a few whole ones, for tests. Only tests show their content.

use byteorder::{ByteOrder, LittleEndian};
use std::alloc::{AllocError, Global};

/// A note to be written, with a NUL after its name and both paddings.
#[derive(Clone, Copy, Debug)]
pub struct NotePart<'a> {
    /// Its name, without the NUL.
    pub name: &'a [u8],
    /// n_type.
    pub kind: u32,
    /// Its descriptor.
    pub desc: &'a [u8],
}

/// A PT_LOAD segment to be written.
#[derive(Clone, Copy, Debug)]
pub struct LoadPart<'a> {
    /// p_flags.
    pub flags: u32,
    /// p_vaddr.
    pub vaddr: u64,
    /// p_memsz.
    pub memsz: u64,
    /// The segment's bytes in the file.
    pub bytes: &'a [u8],
}

/// An entry of NT_FILE to be written.
#[derive(Clone, Copy, Debug)]
pub struct FilePart<'a> {
    /// The first address.
    pub start: u64,
    /// The address after the last.
    pub end: u64,
    /// The place of the first byte in the file, in pages.
    pub offset: u64,
    /// The file's name, without the NUL.
    pub name: &'a [u8],
}

/// A symbol to be written.
#[derive(Clone, Copy, Debug)]
pub struct SymbolPart {
    /// st_name: where the name begins in the string table.
    pub name: u32,
    /// st_info: 16 times the binding, and the type.
    pub info: u8,
    /// st_shndx.
    pub section: u16,
    /// st_value.
    pub value: u64,
    /// st_size.
    pub size: u64,
}

/// n_type of a thread's state.
pub const NT_PRSTATUS: u32 = 1;
/// n_type of a process's state and names.
pub const NT_PRPSINFO: u32 = 3;
/// n_type of the auxiliary vector.
pub const NT_AUXV: u32 = 6;
/// n_type of the list of mapped files.
pub const NT_FILE: u32 = 0x4649_4c45;
/// n_type of the signal that was met.
pub const NT_SIGINFO: u32 = 0x5349_4749;

/// The place of the section headers of a made executable.
const SECTIONS_AT: u64 = 0x1000;

/// Little-endian fields at the end of `out`: of each its width, up to 8 bytes, and its value.
fn push_fields(out: &mut Vec<u8>, fields: &[(usize, u64)]) -> Result<(), AllocError> {
    for (width, value) in fields {
        out.extend_from_slice(&value.to_le_bytes()[..(*width).min(8)])?;
    }
    Ok(())
}

/// The fields of a file header.
#[derive(Clone, Copy)]
struct FileParts {
    kind: u64,
    header_size: u64,
    segments: u64,
    sections_at: u64,
    sections: u64,
}

/// The first fields of a file header, up to e_version: of RISC-V 64.
fn push_identity(out: &mut Vec<u8>, kind: u64) -> Result<(), AllocError> {
    out.extend_from_slice(b"\x7fELF\x02\x01\x01\0\0\0\0\0\0\0\0\0")?;
    push_fields(out, &[(2, kind), (2, 243), (4, 1)])
}

/// A file header; the program headers follow it.
fn push_file_header(out: &mut Vec<u8>, parts: FileParts) -> Result<(), AllocError> {
    let section_size = if parts.sections == 0 { 0 } else { 64 };
    push_identity(out, parts.kind)?;
    let places = [(8, 0), (8, 64), (8, parts.sections_at), (4, 0)];
    push_fields(out, &places)?;
    let sizes = [
        (2, parts.header_size),
        (2, 56),
        (2, parts.segments),
        (2, section_size),
        (2, parts.sections),
        (2, 0),
    ];
    push_fields(out, &sizes)
}

/// The places and sizes of a segment.
#[derive(Clone, Copy)]
struct Extent {
    offset: u64,
    vaddr: u64,
    filesz: u64,
    memsz: u64,
}

/// The first page of a made executable, and where it lies in memory.
const FIRST_PAGE: Extent = Extent {
    offset: 0,
    vaddr: 0x10000,
    filesz: SECTIONS_AT,
    memsz: SECTIONS_AT,
};

/// A program header.
fn push_program_header(
    out: &mut Vec<u8>,
    kind: u32,
    flags: u32,
    extent: Extent,
) -> Result<(), AllocError> {
    let fields = [
        (4, u64::from(kind)),
        (4, u64::from(flags)),
        (8, extent.offset),
        (8, extent.vaddr),
        (8, 0),
        (8, extent.filesz),
        (8, extent.memsz),
        (8, 0),
    ];
    push_fields(out, &fields)
}

/// The fields of a section header that are not zero.
#[derive(Clone, Copy)]
struct SectionParts {
    kind: u64,
    offset: u64,
    size: u64,
    link: u64,
    info: u64,
    entry: u64,
}

/// Section header 0, and the base of the other headers.
const NO_SECTION: SectionParts = SectionParts {
    kind: 0,
    offset: 0,
    size: 0,
    link: 0,
    info: 0,
    entry: 0,
};

/// A section header.
fn push_section_header(out: &mut Vec<u8>, parts: SectionParts) -> Result<(), AllocError> {
    let fields = [
        (4, 0),
        (4, parts.kind),
        (8, 0),
        (8, 0),
        (8, parts.offset),
        (8, parts.size),
        (4, parts.link),
        (4, parts.info),
        (8, 0),
        (8, parts.entry),
    ];
    push_fields(out, &fields)
}

/// Bytes, and zeros up to a multiple of four bytes.
fn push_padded(out: &mut Vec<u8>, bytes: &[u8]) -> Result<(), AllocError> {
    out.extend_from_slice(bytes)?;
    let padding = (4 - out.len() % 4) % 4;
    out.extend_from_slice(&[0u8; 4][..padding])
}

/// A note, and its paddings.
fn push_note(out: &mut Vec<u8>, note: &NotePart<'_>) -> Result<(), AllocError> {
    let sizes = [
        (4, (note.name.len() as u64).saturating_add(1)),
        (4, note.desc.len() as u64),
        (4, u64::from(note.kind)),
    ];
    push_fields(out, &sizes)?;
    out.extend_from_slice(note.name)?;
    push_padded(out, &[0])?;
    push_padded(out, note.desc)
}

/// The bytes of notes, one after the other.
///
/// Refused only if there is no memory.
pub fn note_bytes(alloc: Global, notes: &[NotePart<'_>]) -> Result<Vec<u8>, AllocError> {
    let mut out = Vec::new(alloc);
    for note in notes {
        push_note(&mut out, note)?;
    }
    Ok(out)
}

/// The file header of a core of so many segments. From 65,535 on a section header at `end` holds their number.
fn core_parts(count: u64, end: u64) -> FileParts {
    let is_many = count >= 0xffff;
    FileParts {
        kind: 4,
        header_size: 64,
        segments: count.min(0xffff),
        sections_at: if is_many { end } else { 0 },
        sections: u64::from(is_many),
    }
}

/// A core: its file header, its program headers, its notes in one PT_NOTE (which is left out if there are no notes), and
/// the bytes of its PT_LOAD segments. From 65,535 program headers on, a section header at the end holds their number.
///
/// Refused only if there is no memory.
pub fn core_image(
    alloc: Global,
    notes: &[NotePart<'_>],
    loads: &[LoadPart<'_>],
) -> Result<Vec<u8>, AllocError> {
    let mut out = Vec::new(alloc);
    push_core(&mut out, &note_bytes(alloc, notes)?, loads)?;
    Ok(out)
}

/// A core of notes of these bytes.
fn push_core(out: &mut Vec<u8>, notes: &[u8], loads: &[LoadPart<'_>]) -> Result<(), AllocError> {
    let count = (loads.len() as u64).saturating_add(u64::from(!notes.is_empty()));
    let start = count.saturating_mul(56).saturating_add(64);
    let length = notes.len() as u64;
    let first = start.saturating_add(length);
    push_file_header(out, core_parts(count, end_of(first, loads)))?;
    push_note_header(out, start, length)?;
    push_load_headers(out, first, loads)?;
    out.extend_from_slice(notes)?;
    push_loads(out, loads)?;
    push_count(out, count)
}

/// Where the bytes of PT_LOAD segments end that begin at `start`.
fn end_of(start: u64, loads: &[LoadPart<'_>]) -> u64 {
    let mut end = start;
    for load in loads {
        end = end.saturating_add(load.bytes.len() as u64);
    }
    end
}

/// The program header of notes, if there are any.
fn push_note_header(out: &mut Vec<u8>, offset: u64, filesz: u64) -> Result<(), AllocError> {
    if filesz == 0 {
        return Ok(());
    }
    let extent = Extent {
        offset,
        vaddr: 0,
        filesz,
        memsz: 0,
    };
    push_program_header(out, 4, 0, extent)
}

/// The program headers of PT_LOAD segments, whose bytes begin at `start`.
fn push_load_headers(
    out: &mut Vec<u8>,
    start: u64,
    loads: &[LoadPart<'_>],
) -> Result<(), AllocError> {
    let mut offset = start;
    for load in loads {
        let filesz = load.bytes.len() as u64;
        let extent = Extent {
            offset,
            vaddr: load.vaddr,
            filesz,
            memsz: load.memsz,
        };
        push_program_header(out, 1, load.flags, extent)?;
        offset = offset.saturating_add(filesz);
    }
    Ok(())
}

fn push_loads(out: &mut Vec<u8>, loads: &[LoadPart<'_>]) -> Result<(), AllocError> {
    for load in loads {
        out.extend_from_slice(load.bytes)?;
    }
    Ok(())
}

/// The section header that holds the number of segments, if the file header can't.
fn push_count(out: &mut Vec<u8>, count: u64) -> Result<(), AllocError> {
    if count < 0xffff {
        return Ok(());
    }
    let parts = SectionParts {
        info: count,
        ..NO_SECTION
    };
    push_section_header(out, parts)
}

/// The descriptor of an NT_PRSTATUS; `registers` holds pc and then x1 to x31.
pub fn status(signal: i16, pid: i32, registers: &[u64; 32]) -> [u8; 376] {
    let mut desc = [0u8; 376];
    LittleEndian::write_i16(&mut desc[12..], signal);
    LittleEndian::write_i32(&mut desc[32..], pid);
    for i in 0..32 {
        LittleEndian::write_u64(&mut desc[112 + 8 * i..], registers[i]);
    }
    desc
}

/// The registers of the samples: word i is i, but for pc, ra, sp and fp.
pub fn registers() -> [u64; 32] {
    let mut words = [0u64; 32];
    for i in 0..32 {
        words[i] = i as u64;
    }
    words[0] = 0x10400;
    words[1] = 0x10500;
    words[2] = 0x7f20;
    words[8] = 0x7f40;
    words
}

/// The descriptor of the samples' NT_PRPSINFO: state R, user and group 1000, process, group and session 4242, parent 1.
pub fn process() -> [u8; 136] {
    let mut desc = [0u8; 136];
    let front =
        b"\0R\0\0\0\0\0\0\0\0\0\0\0\0\0\0\xe8\x03\0\0\xe8\x03\0\0\x92\x10\0\0\x01\0\0\0\x92\x10\0\0\x92\x10\0\0demo";
    desc[..44].copy_from_slice(front);
    desc[56..63].copy_from_slice(b"demo -v");
    desc
}

/// The descriptor of an NT_FILE.
///
/// Refused only if there is no memory.
pub fn files(alloc: Global, page: u64, parts: &[FilePart<'_>]) -> Result<Vec<u8>, AllocError> {
    let mut out = Vec::new(alloc);
    push_entries(&mut out, page, parts)?;
    push_file_names(&mut out, parts)?;
    Ok(out)
}

/// The numbers of an NT_FILE.
fn push_entries(out: &mut Vec<u8>, page: u64, parts: &[FilePart<'_>]) -> Result<(), AllocError> {
    push_fields(out, &[(8, parts.len() as u64), (8, page)])?;
    for part in parts {
        push_fields(out, &[(8, part.start), (8, part.end), (8, part.offset)])?;
    }
    Ok(())
}

/// The names of entries, each with a NUL after it.
fn push_file_names(out: &mut Vec<u8>, parts: &[FilePart<'_>]) -> Result<(), AllocError> {
    for part in parts {
        out.extend_from_slice(part.name)?;
        out.extend_from_slice(b"\0")?;
    }
    Ok(())
}

/// The stack of the samples, from address 0x7000 on: two frame records, at 0x7f30 and 0x7f70.
pub fn stack() -> [u8; 4096] {
    let mut bytes = [0u8; 4096];
    LittleEndian::write_u64(&mut bytes[0xf30..], 0x7f80);
    LittleEndian::write_u64(&mut bytes[0xf38..], 0x10500);
    LittleEndian::write_u64(&mut bytes[0xf78..], 0x10600);
    bytes
}

/// A note of the name `CORE`.
fn core_note(kind: u32, desc: &[u8]) -> NotePart<'_> {
    NotePart {
        name: b"CORE",
        kind,
        desc,
    }
}

/// The segment of the samples' stack.
fn stack_part(stack: &[u8]) -> LoadPart<'_> {
    LoadPart {
        flags: 6,
        vaddr: 0x7000,
        memsz: 4096,
        bytes: stack,
    }
}

/// A core of one thread with a stack: 4,824 bytes.
///
/// Refused only if there is no memory.
pub fn stack_core(alloc: Global) -> Result<Vec<u8>, AllocError> {
    let status = status(11, 4242, &registers());
    let process = process();
    let notes = [
        core_note(NT_PRSTATUS, &status),
        core_note(NT_PRPSINFO, &process),
    ];
    core_image(alloc, &notes, &[stack_part(&stack())])
}

/// The same core with an NT_FILE of one entry, and more PT_LOAD segments after the stack.
fn core_with_file(
    alloc: Global,
    end: u64,
    more: Option<LoadPart<'_>>,
) -> Result<Vec<u8>, AllocError> {
    let entry = FilePart {
        start: 0x10000,
        end,
        offset: 0,
        name: b"/bin/cat",
    };
    let files = files(alloc, 4096, &[entry])?;
    let status = status(11, 4242, &registers());
    let process = process();
    let notes = [
        core_note(NT_PRSTATUS, &status),
        core_note(NT_PRPSINFO, &process),
        core_note(NT_FILE, &files),
    ];
    let stack = stack();
    let load = stack_part(&stack);
    match more {
        None => core_image(alloc, &notes, &[load]),
        Some(other) => core_image(alloc, &notes, &[load, other]),
    }
}

/// The core with an NT_FILE that maps `/bin/cat` at 0x10000: 4,896 bytes.
///
/// Refused only if there is no memory.
pub fn file_core(alloc: Global) -> Result<Vec<u8>, AllocError> {
    core_with_file(alloc, 0x11000, None)
}

/// The core with two pages of `/bin/cat` at 0x10000 that were not dumped: 4,952 bytes.
///
/// Refused only if there is no memory.
pub fn mapped_core(alloc: Global) -> Result<Vec<u8>, AllocError> {
    let text = LoadPart {
        flags: 5,
        vaddr: 0x10000,
        memsz: 0x2000,
        bytes: &[],
    };
    core_with_file(alloc, 0x12000, Some(text))
}

/// A symbol table, whose symbol 0 is all zero.
fn symbol_table(alloc: Global, symbols: &[SymbolPart]) -> Result<Vec<u8>, AllocError> {
    let mut out = Vec::new(alloc);
    out.extend_from_slice(&[0u8; 24])?;
    for symbol in symbols {
        push_symbol(&mut out, symbol)?;
    }
    Ok(out)
}

/// An entry of a symbol table.
fn push_symbol(out: &mut Vec<u8>, symbol: &SymbolPart) -> Result<(), AllocError> {
    let fields = [
        (4, u64::from(symbol.name)),
        (2, u64::from(symbol.info)),
        (2, u64::from(symbol.section)),
        (8, symbol.value),
        (8, symbol.size),
    ];
    push_fields(out, &fields)
}

/// The section headers of an executable: an empty one, that of its symbol table of `size` bytes, which follows them, and that of its
/// string table of `length` bytes.
fn push_sections(out: &mut Vec<u8>, size: u64, length: u64) -> Result<(), AllocError> {
    let table_at = SECTIONS_AT + 3 * 64;
    push_section_header(out, NO_SECTION)?;
    push_section_header(
        out,
        SectionParts {
            kind: 2,
            offset: table_at,
            size,
            link: 2,
            info: 0,
            entry: 24,
        },
    )?;
    push_section_header(
        out,
        SectionParts {
            kind: 3,
            offset: table_at.saturating_add(size),
            size: length,
            ..NO_SECTION
        },
    )
}

/// An executable of one PT_LOAD, the first page of the file at 0x10000, with three sections after it: an empty one, a
/// symbol table and its string table `names`.
///
/// Refused only if there is no memory.
pub fn executable_image(
    alloc: Global,
    symbols: &[SymbolPart],
    names: &[u8],
) -> Result<Vec<u8>, AllocError> {
    let table = symbol_table(alloc, symbols)?;
    let mut out = Vec::new(alloc);
    push_executable(&mut out, &table, names)?;
    Ok(out)
}

/// An executable of a symbol table of these bytes.
fn push_executable(out: &mut Vec<u8>, table: &[u8], names: &[u8]) -> Result<(), AllocError> {
    let parts = FileParts {
        kind: 2,
        header_size: 0,
        segments: 1,
        sections_at: SECTIONS_AT,
        sections: 3,
    };
    push_file_header(out, parts)?;
    push_program_header(out, 1, 5, FIRST_PAGE)?;
    out.resize(SECTIONS_AT as usize, 0)?;
    push_sections(out, table.len() as u64, names.len() as u64)?;
    out.extend_from_slice(table)?;
    out.extend_from_slice(names)
}

/// An executable with the functions `main` and `big`: 4,370 bytes.
///
/// Refused only if there is no memory.
pub fn executable(alloc: Global) -> Result<Vec<u8>, AllocError> {
    let main = SymbolPart {
        name: 1,
        info: 0x12,
        section: 1,
        value: 0x10400,
        size: 0x100,
    };
    let big = SymbolPart {
        name: 6,
        info: 0x12,
        section: 1,
        value: 0x10300,
        size: 0x400,
    };
    executable_image(alloc, &[main, big], b"\0main\0big\0")
}
