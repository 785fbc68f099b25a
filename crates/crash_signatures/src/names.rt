//! Names of functions and files without the parts that differ from build to build.
ghost use Rattle.std.specs.Prelude.{◌≡◌, ◌<◌, ◌+◌, ◌≤◌, IfSome, length, take};
ghost use Rattle.std.specs.Char.{is_ascii_digit};
ghost use Rattle.std.specs.List.{before_first, list_all, position, slice_split};
ghost use Rattle.crash_signatures.specs.Names as spec;

use crate::tables::is_ending;
use crate::words::{Text, front, joined};
use memchr::memrchr;

// How many bytes of a function's name are read. More can't change its word, unless a compiler added more than 768 bytes.
const MOST_READ: usize = 1024;

// The word of a function's name: without the parts that a compiler added, and without the hash of a Rust name.
pub(crate) fn function_word(name: &[u8]) -> Text
    ensures { result.items ≡ take 256 (spec.plain_name name.now) }
{
    let plain = without_addition(front(name, MOST_READ));
    match hash_place(plain) {
        Some(at) => joined(&plain[..at], b"E"),
        None => joined(plain, b""),
    }
}

// A name up to the parts that a compiler added, if its end has such. Its first byte stays.
#[tactic(auto, using(crate::proofs::NameLemmas::first_stays, crate::proofs::NameLemmas::added_here, crate::proofs::NameLemmas::added_later, crate::proofs::NameLemmas::added_never))]
fn without_addition(name: &[u8]) -> &[u8]
    ensures { result.now ≡ spec.without_addition name.now }
{
    for at in 1..name.len() {
        if is_addition(&name[at..]) {
            return &name[..at];
        }
    }
    name
}

// Whether these bytes are parts that a compiler added: one of its endings, and then endings and numbers.
fn is_addition(end: &[u8]) -> bool
    ensures { result ≡ spec.is_addition end.now }
{
    match end {
        [b'.', rest @ ..] => is_ending(first_part(rest)) && are_added(rest),
        _ => false,
    }
}

// The bytes before the first dot; all of them, if there is no dot.
#[tactic(auto, using(crate::proofs::NameLemmas::part_at, crate::proofs::NameLemmas::part_whole))]
fn first_part(parts: &[u8]) -> &[u8]
    ensures { result.now ≡ before_first spec.is_dot parts.now }
{
    match dot_in(parts) {
        Some(at) => &parts[..at],
        None => parts,
    }
}

fn dot_in(parts: &[u8]) -> Option<usize>
    ensures value { result ≡ position spec.is_dot parts.now }
    ensures within { IfSome result (λ at. at < length parts.now) }
{
    parts.iter().position(|byte| *byte == b'.')
}

// Whether each part between dots is an ending or a number.
#[tactic(auto, using(crate::proofs::NameLemmas::added_then, crate::proofs::NameLemmas::added_else, crate::proofs::NameLemmas::added_end))]
fn are_added(parts: &[u8]) -> bool
    ensures { result ≡ list_all spec.is_added (slice_split spec.is_dot parts.now) }
{
    match dot_in(parts) {
        Some(at) => is_added(&parts[..at]) && are_added(&parts[at + 1..]),
        None => is_added(parts),
    }
}

fn is_added(part: &[u8]) -> bool
    ensures { result ≡ spec.is_added part.now }
{
    is_ending(part) || is_number(part)
}

fn is_number(part: &[u8]) -> bool
    ensures { result ≡ spec.is_number part.now }
{
    !part.is_empty() && are_digits(part)
}

fn are_digits(text: &[u8]) -> bool
    ensures { result ≡ list_all is_ascii_digit text.now }
{
    text.iter().all(|byte| byte.is_ascii_digit())
}

// Where the hash at the end of a Rust name begins.
fn hash_place(name: &[u8]) -> Option<usize>
    ensures value { result ≡ spec.hash_place name.now }
    ensures within { IfSome result (λ at. at ≤ length name.now) }
{
    if name.len() < 20 || !is_hash(&name[name.len() - 20..]) {
        return None;
    }
    Some(name.len() - 20)
}

// Whether these 20 bytes are the hash at the end of a Rust name.
fn is_hash(end: &[u8]) -> bool
    requires { length end.now ≡ 20 }
    ensures { result ≡ spec.is_hash end.now }
{
    end.starts_with(b"17h") && end.ends_with(b"E") && are_hash_digits(&end[3..19])
}

fn are_hash_digits(text: &[u8]) -> bool
    ensures { result ≡ list_all spec.is_hash_digit text.now }
{
    text.iter().all(|byte| is_hash_digit(*byte))
}

fn is_hash_digit(byte: u8) -> bool
    ensures { result ≡ spec.is_hash_digit byte }
{
    byte.is_ascii_digit() || (b'a'..=b'f').contains(&byte)
}

// The last component of a path. It is `/`, if nothing follows the last slash.
pub(crate) fn base_name(path: &[u8]) -> &[u8]
    ensures { result.now ≡ spec.base_name path.now }
{
    let last = last_part(without_deleted(path));
    if last.is_empty() { b"/" } else { last }
}

// The bytes after the last slash; all of them, if there is no slash.
#[tactic(auto, using(crate::proofs::NameLemmas::last_at, crate::proofs::NameLemmas::last_whole))]
fn last_part(path: &[u8]) -> &[u8]
    ensures { result.now ≡ spec.last_part path.now }
{
    match memrchr(b'/', path) {
        Some(at) => &path[at + 1..],
        None => path,
    }
}

// A path without the words that the kernel puts behind the name of a file that was unlinked.
pub(crate) fn without_deleted(path: &[u8]) -> &[u8]
    ensures { result.now ≡ spec.without_deleted path.now }
{
    if path.ends_with(b" (deleted)") {
        &path[..path.len() - 10]
    } else {
        path
    }
}
