// The length that the program headers of a core file want.
ghost use Rattle.std.specs.Prelude.{◌≡◌, ◌+◌, ◌*◌, ◌≤◌, length};
ghost use Rattle.core_checks.specs.Whole as spec;

use elf_view::{u16_at, u32_at, u64_at};

// The width of the words of an ELF file: its class.
#[derive(Clone, Copy)]
enum Class {
    // ELFCLASS32
    Narrow,
    // ELFCLASS64
    Wide,
}

// The p_type of a segment that is loaded.
const PT_LOAD: u32 = 1;

// The e_type of a core file.
const ET_CORE: u16 = 4;

// The e_phnum of a file whose number of program headers is elsewhere.
const PN_XNUM: u16 = 0xffff;

/// How many bytes a core file has, of whatever machine, if it is whole: its segments end there. These are its first bytes, or all. The
/// file may have fewer: it was cut on its way. An end that is no number of 64 bits is given as the highest one.
///
/// `None` if the length can't be known: the bytes are no little-endian ELF core file, or the program headers are not whole in
/// them, or number 65,535 or more. (System V gABI, "ELF Header", "Program Header".)
#[tactic(auto, unfolding(crate::specs::Whole::whole_length))]
pub fn whole_length(front: &[u8]) -> Option<u64>
    ensures { result ≡ spec.whole_length front.now }
{
    match class_of(front)? {
        Class::Narrow => {
            let table = u64::from(u32_at(front, 28));
            table_length(
                front,
                Class::Narrow,
                table,
                u16_at(front, 42),
                u16_at(front, 44),
            )
        }
        Class::Wide => {
            let table = u64_at(front, 32);
            table_length(
                front,
                Class::Wide,
                table,
                u16_at(front, 54),
                u16_at(front, 56),
            )
        }
    }
}

// The class of a little-endian ELF core file whose header is whole, if it is one.
fn class_of(front: &[u8]) -> Option<Class>
    ensures { result ≡ spec.class_of front.now }
{
    if front.len() < 52 || !front.starts_with(b"\x7fELF") {
        return None;
    }
    if front[5] != 1 || u16_at(front, 16) != ET_CORE {
        return None;
    }
    match front[4] {
        1 => Some(Class::Narrow),
        2 if front.len() >= 64 => Some(Class::Wide),
        _ => None,
    }
}

// How many bytes a program header has.
fn header_size(class: Class) -> u16
    ensures { result ≡ spec.header_size class }
{
    match class {
        Class::Narrow => 32,
        Class::Wide => 56,
    }
}

// The length by the program headers from a place on, if they are whole.
fn table_length(front: &[u8], class: Class, table: u64, size: u16, count: u16) -> Option<u64>
    ensures { result ≡ spec.table_length front.now class table size count }
{
    if size != header_size(class) || count == PN_XNUM {
        return None;
    }
    if u128::from(table) + u128::from(size) * u128::from(count) > front.len() as u128 {
        return None;
    }
    Some(last_end(front, class, table as usize, count))
}

// The highest end of the segments that are loaded; 0 if no segment is loaded.
fn last_end(front: &[u8], class: Class, table: usize, count: u16) -> u64
    requires { table + spec.header_size class * count ≤ length front.now }
    ensures { result ≡ spec.last_end front.now class table count }
{
    let size = usize::from(header_size(class));
    let mut end = 0;
    for i in 0..count {
        end = load_end(front, class, table + size * usize::from(i)).max(end);
    }
    end
}

// The end of a segment, if it is one that is loaded; else 0.
fn load_end(front: &[u8], class: Class, at: usize) -> u64
    requires { at + spec.header_size class ≤ length front.now }
    ensures { result ≡ spec.load_end front.now class at }
{
    if u32_at(front, at) != PT_LOAD {
        return 0;
    }
    match class {
        Class::Narrow => u64::from(u32_at(front, at + 4)) + u64::from(u32_at(front, at + 16)),
        Class::Wide => u64_at(front, at + 8).saturating_add(u64_at(front, at + 32)),
    }
}
