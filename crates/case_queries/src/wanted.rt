// How much of an image its headers and notes want, as far as its first bytes show. No answer rests on this: a wrong number costs
// one more read.
ghost use Rattle.std.specs.Prelude.{◌+◌, ◌*◌, ◌<◌, ◌≤◌, length};

use elf_view::{u16_at, u32_at, u64_at};

// The size of the file header, and that of a program header.
const FILE_HEADER: usize = 64;

const PROGRAM_HEADER: usize = 56;

// The most bytes that are read before all are.
const MOST: u64 = 67_108_864;

// The end of the image that the program header at place `at` wants, if it is a PT_NOTE.
fn note_end(front: &[u8], at: usize) -> u64
    requires { at + 56 ≤ length front.now }
{
    if u32_at(front, at) != 4 {
        return 0;
    }
    u64_at(front, at + 8).saturating_add(u64_at(front, at + 32))
}

// The end of the image that `count` program headers from place `at` on want.
fn notes_end(front: &[u8], at: usize, count: usize) -> u64
    requires { at + 56 * count ≤ length front.now }
{
    let mut end = 0;
    for i in 0..count {
        end = note_end(front, at + PROGRAM_HEADER * i).max(end);
    }
    end
}

// How many bytes of an image its table of program headers and its notes want.
fn wanted_front(front: &[u8]) -> u64 {
    if front.len() < FILE_HEADER {
        return 0;
    }
    let table = u64_at(front, 32);
    let count = usize::from(u16_at(front, 56));
    let past = table.saturating_add((PROGRAM_HEADER * count) as u64);
    if past > front.len() as u64 {
        return past;
    }
    notes_end(front, table as usize, count).max(past)
}

// The place up to which an image of `size` bytes is read next: these bytes of it are read, and are not enough.
pub(crate) fn next_end(front: &[u8], size: usize) -> usize
    requires { length front.now < size }
    ensures more { length front.now < result }
    ensures most { result ≤ size }
{
    let wanted = wanted_front(front).min(MOST) as usize;
    if front.len() < wanted && wanted < size {
        return wanted;
    }
    size
}
