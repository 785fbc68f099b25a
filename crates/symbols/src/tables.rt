// The symbol table of an image and its string table, and their faults in order.
ghost use Rattle.std.specs.Prelude.{◌≡◌, ◌-◌, ◌<◌, IfOk, IfSome, None, Ok, Some, find};
ghost use Rattle.std.specs.List.{range_with_len};
ghost use Rattle.std.specs.Option.{option_map};
ghost use Rattle.std.specs.Result.{result_err};
ghost use Rattle.memchr.specs.Find.{IsLastByte, is_byte};
ghost use Rattle.elf_view.specs.SectionTable.{section_count_of};
ghost use Rattle.elf_view.specs.SectionWords.{section_view};
ghost use Rattle.elf_view.specs.ViewWords.{image_of};
ghost use Rattle.symbols.specs.Entry as entry;
ghost use Rattle.symbols.specs.SymbolTable as spec;

use crate::faults::{SymbolFault, SymbolField};
use crate::functions::Functions;
use elf_view::{Elf, Section, SectionFault};
use memchr::memrchr;

/// The type of a section that holds a complete symbol table.
const SHT_SYMTAB: u32 = 2;

/// The type of a section that holds a string table.
const SHT_STRTAB: u32 = 3;

/// The type of a section that holds the symbols for dynamic linking.
const SHT_DYNSYM: u32 = 11;

/// The symbol table of an image: its entries, and the string table with their names.
#[derive(Clone, Copy)]
pub(crate) struct Table<'a> {
    pub(crate) entries: &'a [u8],
    pub(crate) strings: &'a [u8],
}

/// A fault of a field, with its number.
fn fault(field: SymbolField, index: u64) -> SymbolFault
    ensures { result ≡ spec.fault_at field index }
{
    SymbolFault { field, index }
}

/// The number of sections.
fn section_count(elf: &Elf<'_>) -> Result<u64, SymbolFault>
    ensures fault { result_err result ≡ spec.section_fault (section_count_of (image_of elf.now)) }
    ensures count { IfOk result (λ count. section_count_of (image_of elf.now) ≡ Ok count) }
{
    match elf.section_count() {
        Ok(count) => Ok(count),
        Err(SectionFault::EShentsize) => Err(fault(SymbolField::EShentsize, 0)),
        Err(SectionFault::EShoff) => Err(fault(SymbolField::EShoff, 0)),
        Err(SectionFault::NoSection) => unreachable!(),
    }
}

/// Section `i` of `count`.
fn section<'a>(elf: &Elf<'a>, count: u64, i: u64) -> Section<'a>
    requires count { section_count_of (image_of elf.now) ≡ Ok count }
    requires within { i < count }
    ensures { section_view result ≡ spec.section_at (image_of elf.now) i }
{
    match elf.section(i) {
        Ok(section) => section,
        Err(_) => unreachable!(),
    }
}

/// The number of the first of `count` sections that is of a type.
fn first_of_kind(elf: &Elf<'_>, count: u64, kind: u32) -> Option<u64>
    requires { section_count_of (image_of elf.now) ≡ Ok count }
    ensures first { result ≡ find (spec.is_kind (image_of elf.now) kind) (range_with_len 0 (count - 0)) }
    ensures within { IfSome result (λ i. i < count) }
{
    for i in 0..count {
        if section(elf, count, i).kind == kind {
            return Some(i);
        }
    }
    None
}

/// The number of the section that is the symbol table.
#[tactic(auto, unfolding(crate::specs::SymbolTable::table_number))]
fn table_number(elf: &Elf<'_>, count: u64) -> Option<u64>
    requires { section_count_of (image_of elf.now) ≡ Ok count }
    ensures number { result ≡ spec.table_number (image_of elf.now) }
    ensures within { IfSome result (λ i. i < count) }
{
    match first_of_kind(elf, count, SHT_SYMTAB) {
        Some(i) => Some(i),
        None => first_of_kind(elf, count, SHT_DYNSYM),
    }
}

/// Whether `i` is the number of one of `count` sections that is a string table.
fn is_string_table(elf: &Elf<'_>, count: u64, i: u64) -> bool
    requires { section_count_of (image_of elf.now) ≡ Ok count }
    ensures { result ≡ spec.is_string_table (image_of elf.now) i }
{
    i < count && section(elf, count, i).kind == SHT_STRTAB
}

/// Section `i` of `count` as a symbol table.
fn table_at<'a>(elf: &Elf<'a>, count: u64, i: u64) -> Result<Table<'a>, SymbolFault>
    requires count { section_count_of (image_of elf.now) ≡ Ok count }
    requires within { i < count }
    ensures fault { result_err result ≡ spec.first_failing (spec.table_checks (image_of elf.now) i) }
    ensures entries { IfOk result (λ t. t.entries.now ≡ spec.entries_at (image_of elf.now) (Some i)) }
    ensures strings { IfOk result (λ t. t.strings.now ≡ spec.strings_at (image_of elf.now) (Some i)) }
{
    let table = section(elf, count, i);
    if table.entsize != 24 {
        return Err(fault(SymbolField::ShEntsize, i));
    }
    if table.size % 24 != 0 {
        return Err(fault(SymbolField::ShSize, i));
    }
    let Some(entries) = table.bytes else {
        return Err(fault(SymbolField::ShOffset, i));
    };
    let link = u64::from(table.link);
    if !is_string_table(elf, count, link) {
        return Err(fault(SymbolField::ShLink, i));
    }
    let Some(strings) = section(elf, count, link).bytes else {
        return Err(fault(SymbolField::ShOffset, link));
    };
    Ok(Table { entries, strings })
}

/// The symbol table among `count` sections, or an empty one if there is no symbol table.
fn find_table<'a>(elf: &Elf<'a>, count: u64) -> Result<Table<'a>, SymbolFault>
    requires { section_count_of (image_of elf.now) ≡ Ok count }
    ensures fault { result_err result ≡ spec.table_fault (image_of elf.now) (spec.table_number (image_of elf.now)) }
    ensures entries { IfOk result (λ t. t.entries.now ≡ spec.entries_of (image_of elf.now)) }
    ensures strings { IfOk result (λ t. t.strings.now ≡ spec.strings_of (image_of elf.now)) }
{
    match table_number(elf, count) {
        Some(i) => table_at(elf, count, i),
        None => Ok(Table {
            entries: &[],
            strings: &[],
        }),
    }
}

/// Whether the strings have a NUL at a place or after it, if the last is at `last`.
fn is_ended(strings: &[u8], last: Option<usize>, place: u32) -> bool
    requires { IsLastByte (is_byte 0) strings.now last }
    ensures { result ≡ spec.ends_in_nul strings.now place }
{
    match last {
        Some(last) => place as usize <= last,
        None => false,
    }
}

/// The check of the functions' names.
fn check_names(entries: &[u8], strings: &[u8]) -> Result<(), SymbolFault>
    ensures { result_err result ≡ spec.name_fault strings.now (entry.functions_of entries.now) }
{
    let last = memrchr(0, strings);
    let mut functions = Functions::new(entries);
    while let Some(function) = functions.next() {
        if !is_ended(strings, last, function.name) {
            return Err(fault(SymbolField::StName, function.index));
        }
    }
    Ok(())
}

/// The symbol table of an image, or its first fault.
#[tactic(auto, unfolding(crate::specs::SymbolTable::first_fault))]
pub(crate) fn symbol_table<'a>(elf: &Elf<'a>) -> Result<Table<'a>, SymbolFault>
    ensures fault { result_err result ≡ spec.first_fault (image_of elf.now) }
    ensures entries { IfOk result (λ t. t.entries.now ≡ spec.entries_of (image_of elf.now)) }
    ensures strings { IfOk result (λ t. t.strings.now ≡ spec.strings_of (image_of elf.now)) }
{
    let count = section_count(elf)?;
    let table = find_table(elf, count)?;
    check_names(table.entries, table.strings)?;
    Ok(table)
}
