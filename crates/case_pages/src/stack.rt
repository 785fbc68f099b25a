// The stack of the thread that dumped, from its stack pointer on.
ghost use Rattle.std.specs.Prelude.{◌<◌, ◌+◌, ◌^◌};

use crate::memory::{Memory, Use};
use crate::page::Page;
use crate::tags::Tag;
use crate::texts::{open, put, put_decimal, put_hexadecimal, put_looking, put_text};
use address_space::{Stretch, StretchKind};
use case_screens::CoreAnswers;
use elf_view::{part, u64_at};
use frame_replies::{FrameAnswer, FramesAnswer};
use image_replies::CoreImage;
use memory_replies::{Window, space_with};
use script_words::print_hex_row;
use std::alloc::{AllocError, Global};
use thread_regs::{Reg, threads};

// How many bytes are shown.
const SHOWN: u64 = 256;

// How many bytes a row has.
const ROW: u64 = 16;

// Of how many frames the stack pointer is shown.
const FRAMES: usize = 24;

// How many rows of zeros are shown in a row.
const ZEROS: u64 = 2;

/// The addresses that a page shows as a stack.
#[derive(Clone, Copy)]
pub struct StackRange {
    /// The first of them: the stack pointer of the thread that dumped.
    pub first: u64,
    /// How many they are, up to 256.
    pub length: u64,
    pub ghost fits: { first + length < 2 ^ 64 },
}

/// The addresses that a page shows as the stack of a core, if the core has a thread.
pub fn stack_of(core: &CoreImage<'_>) -> Option<StackRange> {
    let thread = threads(core.notes()).next()?;
    let first = thread.register(Reg::of_word(2));
    Some(StackRange {
        first,
        length: SHOWN.min(u64::MAX - first),
    })
}

// Puts the stack, of whose bytes the image has those in the window.
pub(crate) fn put_stack(
    alloc: Global,
    page: &mut Page,
    answers: &CoreAnswers<'_, '_>,
    memory: &Memory<'_>,
    window: Window<'_>,
) -> Result<(), AllocError> {
    let Ok(core) = &answers.core else {
        return Ok(());
    };
    let Some(range) = stack_of(core) else {
        return Ok(());
    };
    page.open(Tag::H3, &[]);
    page.text(b"Stack");
    put(page, Tag::Small, b" from sp on");
    page.close();
    open(page, Tag::Div, "dump");
    let frames = frames_of(answers);
    let space = space_with(alloc, core, &[])?;
    for stretch in space.stretches(window.size, range.first, range.length) {
        put_stretch(page, memory, frames, window, &stretch);
    }
    page.close();
    Ok(())
}

// The frames of the thread that dumped.
fn frames_of<'s, 'a>(answers: &CoreAnswers<'s, 'a>) -> Option<&'s FramesAnswer<'a>> {
    match answers.unwound.first() {
        Some(Some(frames)) => Some(frames),
        _ => None,
    }
}

fn put_stretch(
    page: &mut Page,
    memory: &Memory<'_>,
    frames: Option<&FramesAnswer<'_>>,
    window: Window<'_>,
    stretch: &Stretch<'_>,
) {
    let first = stretch.first;
    match stretch.kind {
        StretchKind::Core { offset } => {
            let place = offset.saturating_sub(window.at);
            put_bytes(
                page,
                memory,
                frames,
                first,
                part(window.bytes, place, stretch.length),
            );
        }
        StretchKind::FromFile(bytes) => put_bytes(page, memory, frames, first, bytes),
        StretchKind::NotDumped(_) => put_absent(page, first, b"not dumped ", stretch.length),
        StretchKind::Cut => put_absent(page, first, b"cut off ", stretch.length),
        StretchKind::Unmapped => put_absent(page, first, b"not mapped ", stretch.length),
    }
}

// Puts addresses without bytes, and why.
fn put_absent(page: &mut Page, first: u64, word: &[u8], length: u64) {
    begin_row(page, first);
    open(page, Tag::Span, "dim");
    page.text(word);
    put_hexadecimal(page, length);
    page.close();
    page.close();
}

fn begin_row(page: &mut Page, first: u64) {
    open(page, Tag::Div, "row");
    open(page, Tag::Span, "addr");
    put_hexadecimal(page, first);
    page.close();
}

// Puts bytes, 16 a row. Of rows of zeros without a note only the first two are shown.
fn put_bytes(
    page: &mut Page,
    memory: &Memory<'_>,
    frames: Option<&FramesAnswer<'_>>,
    first: u64,
    bytes: &[u8],
) {
    let mut zeros = 0;
    let rows = (bytes.len() as u64).min(SHOWN).div_ceil(ROW);
    for row in 0..rows {
        let start = first.saturating_add(ROW * row);
        let bytes = part(bytes, ROW * row, ROW);
        let frame = frame_at(frames, start);
        if frame.is_some() || bytes.iter().any(|byte| *byte != 0) {
            zeros = 0;
        } else {
            zeros = 1_u64.saturating_add(zeros);
        }
        if zeros <= ZEROS {
            put_row(page, memory, start, bytes, frame);
        } else if zeros == ZEROS + 1 {
            put_dots(page);
        }
    }
}

fn put_dots(page: &mut Page) {
    open(page, Tag::Div, "row");
    put_looking(page, Tag::Span, "addr", b"");
    put_looking(page, Tag::Span, "dim", b"..");
    page.close();
}

// The first frame whose stack pointer is in a row, and its number.
fn frame_at<'f, 'a>(
    frames: Option<&'f FramesAnswer<'a>>,
    start: u64,
) -> Option<(usize, &'f FrameAnswer<'a>)> {
    let frames = frames?;
    let (first, _) = frames.frames.split_at(frames.frames.len().min(FRAMES));
    first
        .iter()
        .enumerate()
        .find(|(_, frame)| is_in_row(frame.stack, start))
}

fn is_in_row(address: Option<u64>, start: u64) -> bool {
    match address {
        Some(address) => start <= address && address - start < ROW,
        None => false,
    }
}

fn put_row(
    page: &mut Page,
    memory: &Memory<'_>,
    start: u64,
    bytes: &[u8],
    frame: Option<(usize, &FrameAnswer<'_>)>,
) {
    begin_row(page, start);
    put_word(page, memory, part(bytes, 0, 8));
    put_word(page, memory, part(bytes, 8, 8));
    open(page, Tag::Span, "asc");
    for byte in bytes {
        page.text(&[if 32 <= *byte && *byte <= 126 {
            *byte
        } else {
            b'.'
        }]);
    }
    page.close();
    open(page, Tag::Span, "into");
    if let Some((number, frame)) = frame {
        put_frame(page, number, frame);
    }
    page.close();
    page.close();
}

fn put_frame(page: &mut Page, number: usize, frame: &FrameAnswer<'_>) {
    page.text(b"sp of frame ");
    put_decimal(page, number as u64);
    page.text(b", ");
    match (frame.signal, frame.function) {
        (true, _) => page.text(b"where a signal was handled"),
        (false, Some(place)) => put_text(page, place.name),
        (false, None) => page.text(b"?"),
    }
}

// Puts a word of eight bytes, or fewer bytes, with the colour of the mapping that it points into.
fn put_word(page: &mut Page, memory: &Memory<'_>, bytes: &[u8]) {
    if bytes.is_empty() {
        return;
    }
    let purpose = match word_of(bytes) {
        Some(word) => memory.at(word).map(|mapping| memory.use_of(mapping)),
        None => None,
    };
    open(page, Tag::Span, look_of(purpose));
    for (at, byte) in bytes.iter().enumerate() {
        page.text(if at > 0 { b" " } else { b"" });
        page.text(print_hex_row(&[*byte]).as_slice());
    }
    page.close();
}

// The number that eight bytes are, unless it is 0.
fn word_of(bytes: &[u8]) -> Option<u64> {
    if bytes.len() < 8 {
        return None;
    }
    let word = u64_at(bytes, 0);
    if word == 0 { None } else { Some(word) }
}

fn look_of(purpose: Option<Use>) -> &'static str {
    match purpose {
        None => "w",
        Some(Use::Stack) => "w k-stack",
        Some(Use::Code) => "w k-code",
        Some(_) => "w k-data",
    }
}
