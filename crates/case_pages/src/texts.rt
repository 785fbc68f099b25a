// The small texts of a page.
use crate::attributes::{Attribute, AttributeName, Value};
use crate::page::Page;
use crate::tags::Tag;
use case_tables::{print_signal, print_size, print_time};
use memchr::memrchr;
use script_streams::Reply;
use script_words::{print_decimal, print_hexadecimal, print_signed};

// How many bytes of a text are shown at most.
const TEXT_BYTES: usize = 256;

// The attribute that gives an element its look.
pub(crate) fn class(name: &'static str) -> Attribute {
    Attribute {
        name: AttributeName::Class,
        value: Value::Constant(name),
    }
}

// Opens an element of this look.
pub(crate) fn open(page: &mut Page, element: Tag, look: &'static str) {
    page.open(element, &[class(look)]);
}

// Puts an element with a text.
pub(crate) fn put(page: &mut Page, element: Tag, text: &[u8]) {
    page.open(element, &[]);
    page.text(text);
    page.close();
}

// Puts an element of this look with a text.
pub(crate) fn put_looking(page: &mut Page, element: Tag, look: &'static str, text: &[u8]) {
    open(page, element, look);
    page.text(text);
    page.close();
}

// Puts a text that comes from elsewhere: its first bytes, and how many more it has; `-`, if it is empty.
pub(crate) fn put_text(page: &mut Page, text: &[u8]) {
    let (shown, rest) = text.split_at(text.len().min(TEXT_BYTES));
    page.text(if shown.is_empty() { b"-" } else { shown });
    if !rest.is_empty() {
        page.text(b".. ");
        put_more(page, rest.len());
    }
}

// How many characters a name has at most if there is little room.
const ROOM: usize = 30;

// Puts the first bytes of a text, as many as there is room for.
pub(crate) fn put_front(page: &mut Page, text: &[u8]) {
    let (shown, rest) = text.split_at(fitting(text).min(text.len()));
    page.text(shown);
    if !rest.is_empty() {
        page.text(b"..");
    }
}

// How many first bytes of a text fit: a byte that doesn't print takes four characters.
fn fitting(text: &[u8]) -> usize {
    let mut room = ROOM;
    for (at, byte) in text.iter().enumerate() {
        let width = if 32 <= *byte && *byte <= 126 { 1 } else { 4 };
        if width > room {
            return at;
        }
        room -= width;
    }
    text.len()
}

// Puts the key of the colours of words.
pub(crate) fn put_key(page: &mut Page) {
    open(page, Tag::Span, "key");
    put_colour(page, "k-code", b"code ");
    put_colour(page, "k-stack", b"stack ");
    put_colour(page, "k-data", b"data");
    page.close();
}

fn put_colour(page: &mut Page, look: &'static str, text: &[u8]) {
    put_looking(page, Tag::I, look, b"");
    page.text(text);
}

// Puts how many more there are.
pub(crate) fn put_more(page: &mut Page, count: usize) {
    page.text(b"and ");
    put_decimal(page, count as u64);
    page.text(b" more");
}

pub(crate) fn put_decimal(page: &mut Page, number: u64) {
    page.text(print_decimal(u128::from(number)).as_slice());
}

pub(crate) fn put_signed(page: &mut Page, number: i64) {
    page.text(print_signed(number).as_slice());
}

pub(crate) fn put_hexadecimal(page: &mut Page, number: u64) {
    page.text(print_hexadecimal(u128::from(number)).as_slice());
}

pub(crate) fn put_time(page: &mut Page, time: u64) {
    let mut reply = Reply::new(page);
    print_time(&mut reply, time);
    let _ = reply.finish();
}

pub(crate) fn put_size(page: &mut Page, size: u64) {
    let mut reply = Reply::new(page);
    print_size(&mut reply, size);
    let _ = reply.finish();
}

pub(crate) fn put_signal(page: &mut Page, signal: u32) {
    let mut reply = Reply::new(page);
    print_signal(&mut reply, signal);
    let _ = reply.finish();
}

// The part of a path after its last slash.
pub(crate) fn base_of(path: &[u8]) -> &[u8] {
    match memrchr(b'/', path) {
        Some(at) => path.split_at(at).1.split_at(1).1,
        None => path,
    }
}
