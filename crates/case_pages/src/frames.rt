// The frames of the thread that dumped.
use crate::attributes::{Attribute, AttributeName, Value};
use crate::page::Page;
use crate::tags::Tag;
use crate::texts::{
    base_of, open, put, put_decimal, put_hexadecimal, put_looking, put_more, put_signed, put_text,
};
use case_screens::{CoreAnswers, file_place, frame_file};
use core_notes::{FileMap, Files};
use frame_replies::{FrameAnswer, FramesAnswer, SourceLine, line_of, stop_fault};
use memory_replies::Location;
use script_words::print_hexadecimal;
use thread_regs::threads;
use unwind::Stop;

// How many frames are shown at most.
const MOST: usize = 24;

// Puts the frames of the thread that dumped, which Linux writes first.
pub(crate) fn put_first_frames(page: &mut Page, answers: &CoreAnswers<'_, '_>) {
    let Ok(core) = &answers.core else {
        return;
    };
    let Some(Some(frames)) = answers.unwound.first() else {
        return;
    };
    page.open(Tag::H3, &[]);
    page.text(b"Frames");
    if let Some(thread) = threads(core.notes()).next() {
        page.open(Tag::Small, &[]);
        page.text(b" of thread ");
        put_signed(page, i64::from(thread.tid()));
        page.text(b", which dumped");
        page.close();
    }
    page.close();
    put_frames(page, core.notes().files(), frames);
    put_stop(page, frames.stop);
}

fn put_frames(page: &mut Page, files: Option<Files<'_>>, frames: &FramesAnswer<'_>) {
    open(page, Tag::Table, "frames");
    page.open(Tag::Tbody, &[]);
    let (first, others) = frames.frames.split_at(frames.frames.len().min(MOST));
    for (row, frame) in first.iter().enumerate() {
        put_frame(page, files, row, frame, line_of(&frames.lines, row));
    }
    put_others(page, others.len());
    page.close();
    page.close();
}

fn put_others(page: &mut Page, count: usize) {
    if count == 0 {
        return;
    }
    page.open(Tag::Tr, &[]);
    put(page, Tag::Td, b"");
    page.open(
        Tag::Td,
        &[Attribute {
            name: AttributeName::Colspan,
            value: Value::Number(3),
        }],
    );
    put_more(page, count);
    page.close();
    page.close();
}

fn put_frame(
    page: &mut Page,
    files: Option<Files<'_>>,
    row: usize,
    frame: &FrameAnswer<'_>,
    source: Option<&SourceLine>,
) {
    page.open(Tag::Tr, &[]);
    open(page, Tag::Td, "num dim");
    put_decimal(page, row as u64);
    page.close();
    let file = frame_file(files, frame);
    open(page, Tag::Td, "fnname");
    put_place(page, frame, file);
    put_source(page, source);
    page.close();
    open(page, Tag::Td, "file");
    put_file(page, file);
    page.close();
    open(page, Tag::Td, "addr");
    put_hexadecimal(page, frame.pc);
    page.close();
    page.close();
}

// Puts the source line of a frame, if it is known.
fn put_source(page: &mut Page, source: Option<&SourceLine>) {
    if let Some(source) = source {
        open(page, Tag::Span, "dim");
        page.text(b" ");
        put_text(page, &source.file);
        page.text(b":");
        put_decimal(page, u64::from(source.line));
        page.close();
    }
}

fn put_file(page: &mut Page, file: Option<FileMap<'_>>) {
    match file {
        Some(map) => put_text(page, base_of(map.name)),
        None => page.text(b"-"),
    }
}

// Puts the place of a frame: in a function, or else in its file.
fn put_place(page: &mut Page, frame: &FrameAnswer<'_>, file: Option<FileMap<'_>>) {
    if frame.signal {
        put_looking(page, Tag::Span, "mark", b"a signal was handled here");
        return;
    }
    match (frame.function, file) {
        (Some(place), _) => put_function(page, place),
        (None, Some(map)) => put_unnamed(page, &map, frame.pc),
        (None, None) => put_looking(page, Tag::Span, "dim", b"?"),
    }
}

fn put_unnamed(page: &mut Page, map: &FileMap<'_>, pc: u64) {
    open(page, Tag::Span, "dim");
    put_text(page, &file_place(map, pc).text);
    page.close();
}

fn put_function(page: &mut Page, place: Location<'_>) {
    page.open(Tag::B, &[]);
    put_text(page, place.name);
    page.close();
    open(page, Tag::Span, "dim");
    page.text(b"+");
    page.text(print_hexadecimal(place.distance).as_slice());
    page.close();
}

fn put_stop(page: &mut Page, stop: Stop) {
    match stop {
        Stop::Outermost => open(page, Tag::P, "stop good"),
        _ => open(page, Tag::P, "stop warn"),
    }
    page.text(b"They end here: ");
    page.text(words_of(stop).as_bytes());
    if let Some((field, entry)) = stop_fault(stop) {
        page.text(b" (");
        page.text(field.as_bytes());
        page.text(b" of entry ");
        put_decimal(page, entry);
        page.text(b")");
    }
    page.text(b".");
    page.close();
}

// Why no other frame comes.
pub(crate) fn words_of(stop: Stop) -> &'static str {
    match stop {
        Stop::NoFile => "no file is mapped at this address",
        Stop::NoExecutable => "the file of this frame is not stored",
        Stop::OtherBuild => "another build of the file of this frame is stored",
        Stop::NoAddress => "the stored file has no such place",
        Stop::NoEntry => "the file does not say how this code is unwound",
        Stop::Compressed => "the file's call frame information is compressed",
        Stop::FaultyEntry(_) | Stop::FaultyRow(_) => "the file's call frame information is damaged",
        Stop::Outermost => "this is the outermost frame, none is missing",
        Stop::Expression => "an expression is needed, which is not computed",
        Stop::Undefined => "a register that is needed is not known",
        Stop::NotRising => "the stack does not go on upwards",
        Stop::Unreadable => "the stack that is needed is not in the core",
        Stop::ZeroPc => "the return address is 0",
        Stop::Limit => "1,024 frames are shown at most",
    }
}
