// The frames of the other threads.
use crate::groups::put_separator;
use crate::page::Page;
use crate::tags::Tag;
use crate::texts::{open, put_decimal, put_looking, put_more, put_signed, put_text};
use case_screens::{CoreAnswers, file_place, frame_file, thread_count};
use core_notes::Files;
use frame_replies::{FrameAnswer, FramesAnswer};
use image_replies::CoreImage;
use std::alloc::{AllocError, Global};
use thread_regs::threads;

// How many threads are shown at most.
const MOST: usize = 64;

// How many frames of a thread are shown at most.
const FRAMES: usize = 7;

// A thread that is shown.
#[derive(Clone, Copy)]
struct ShownThread<'s, 'a> {
    tid: i32,
    frames: &'s FramesAnswer<'a>,
}

// Puts the frames of the threads but the first, those with the same frames together.
pub(crate) fn put_threads(
    alloc: Global,
    page: &mut Page,
    answers: &CoreAnswers<'_, '_>,
) -> Result<(), AllocError> {
    let Ok(core) = &answers.core else {
        return Ok(());
    };
    let shown = shown_threads(alloc, core, answers)?;
    if shown.is_empty() {
        return Ok(());
    }
    let count = thread_count(core).saturating_sub(1);
    page.open(Tag::H3, &[]);
    page.text(b"Other threads");
    page.open(Tag::Small, &[]);
    page.text(b" ");
    put_decimal(page, count);
    page.text(b", those with the same frames together");
    page.close();
    page.close();
    put_each(page, core.notes().files(), &shown);
    put_others(page, count.saturating_sub(shown.len() as u64));
    Ok(())
}

// The threads behind the first whose frames were found.
fn shown_threads<'s, 'a>(
    alloc: Global,
    core: &CoreImage<'a>,
    answers: &CoreAnswers<'s, 'a>,
) -> Result<Vec<ShownThread<'s, 'a>>, AllocError> {
    let mut shown = Vec::new(alloc);
    let mut rest = threads(core.notes());
    let (first, _) = answers.unwound.split_at(answers.unwound.len().min(MOST));
    for (at, frames) in first.iter().enumerate() {
        let Some(thread) = rest.next() else {
            break;
        };
        if let (true, Some(frames)) = (at > 0, frames) {
            shown.push(ShownThread {
                tid: thread.tid(),
                frames,
            })?;
        }
    }
    Ok(shown)
}

fn put_each(page: &mut Page, files: Option<Files<'_>>, shown: &[ShownThread<'_, '_>]) {
    for at in 0..shown.len() {
        let (before, rest) = shown.split_at(at);
        put_unless_before(page, files, before, rest);
    }
}

// Puts the first of the rest, and those of it that have the same frames, if none before has them.
fn put_unless_before(
    page: &mut Page,
    files: Option<Files<'_>>,
    before: &[ShownThread<'_, '_>],
    rest: &[ShownThread<'_, '_>],
) {
    let Some(first) = rest.first() else {
        return;
    };
    if before
        .iter()
        .any(|thread| are_alike(thread.frames, first.frames))
    {
        return;
    }
    open(page, Tag::Div, "thr");
    open(page, Tag::Span, "tids");
    put_numbers(page, first.frames, rest);
    page.close();
    page.open(Tag::Span, &[]);
    put_chain(page, files, &first.frames.frames);
    page.close();
    page.close();
}

fn put_numbers(page: &mut Page, frames: &FramesAnswer<'_>, rest: &[ShownThread<'_, '_>]) {
    for (at, thread) in rest.iter().enumerate() {
        if are_alike(thread.frames, frames) {
            page.text(if at > 0 { b", " } else { b"" });
            put_signed(page, i64::from(thread.tid));
        }
    }
}

// Whether two threads have the same frames.
fn are_alike(frames: &FramesAnswer<'_>, others: &FramesAnswer<'_>) -> bool {
    frames.frames.len() == others.frames.len()
        && frames
            .frames
            .iter()
            .zip(others.frames.iter())
            .all(|(frame, other)| frame.pc == other.pc)
}

fn put_chain(page: &mut Page, files: Option<Files<'_>>, frames: &[FrameAnswer<'_>]) {
    let (first, others) = frames.split_at(frames.len().min(FRAMES));
    for (at, frame) in first.iter().enumerate() {
        put_separator(page, at);
        open(page, Tag::Code, "tok");
        put_frame(page, files, frame);
        page.close();
    }
    if !others.is_empty() {
        put_looking(page, Tag::Span, "dim", b" ..");
    }
}

fn put_frame(page: &mut Page, files: Option<Files<'_>>, frame: &FrameAnswer<'_>) {
    match (frame.signal, frame.function) {
        (true, _) => page.text(b"signal"),
        (false, Some(place)) => put_text(page, place.name),
        (false, None) => put_unnamed(page, files, frame),
    }
}

fn put_unnamed(page: &mut Page, files: Option<Files<'_>>, frame: &FrameAnswer<'_>) {
    match frame_file(files, frame) {
        Some(map) => put_text(page, &file_place(&map, frame.pc).text),
        None => page.text(b"?"),
    }
}

fn put_others(page: &mut Page, count: u64) {
    if count > 0 {
        open(page, Tag::P, "dim");
        put_more(page, count as usize);
        page.close();
    }
}
