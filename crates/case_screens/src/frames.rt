// The frames of a thread.
ghost use Rattle.std.specs.Prelude.{◌≡◌, ◌-◌, Some, find, length, map, option_map};
ghost use Rattle.core_notes.specs.FileList.{is_mapping};
ghost use Rattle.core_notes.specs.FileWords.{file_view, files_bytes, files_left};
ghost use Rattle.image_replies.specs.Lines.{numbered_lines};
ghost use Rattle.frame_replies.specs.LineWords.{source_view};
ghost use Rattle.script_streams.specs.Replies.{PrintsText, printing};
ghost use Rattle.case_screens.specs.Core.{files_in};
ghost use Rattle.case_screens.specs.Frames as spec;

use crate::reason::no_thread;
use crate::texts::{MARGIN, print_label, print_left, print_name, print_refused, room_after};
use case_tables::print_spaces;
use core_notes::{FileMap, FileMaps, Files};
use crash_signatures::{FrameFacts, MappedFile, Word, word_of};
use frame_replies::{FrameAnswer, FramesAnswer, SourceLine, line_of, print_stop};
use memory_replies::Location;
use script_streams::{Output, Reply};
use script_words::{print_decimal, print_hexadecimal};

// How many frames are shown at most.
const MOST: usize = 20;

// Prints the frames of a thread, at most 20, and why they end, if the core has the thread.
pub(crate) fn print_frames<O: Output>(
    reply: &mut Reply<'_, O>,
    files: Option<Files<'_>>,
    frames: &Option<FramesAnswer<'_>>,
)
    ensures { PrintsText (printing O.Output reply.old reply.new) (spec.frames_text (files_in (option_map files_bytes files.entry)) frames.now) }
{
    match frames {
        Some(answer) => print_known_frames(reply, files, answer),
        None => print_refused(reply, b"frames    ", &no_thread()),
    }
}

fn print_known_frames<O: Output>(
    reply: &mut Reply<'_, O>,
    files: Option<Files<'_>>,
    answer: &FramesAnswer<'_>,
)
    ensures { PrintsText (printing O.Output reply.old reply.new) (spec.known_frames (files_in (option_map files_bytes files.entry)) answer.now) }
{
    let count = answer.frames.len();
    let (shown, _) = answer.frames.split_at(count.min(MOST));
    print_rows(reply, files, shown, &answer.lines);
    print_more(reply, count);
    reply.print(MARGIN);
    print_stop(reply, answer.stop);
}

fn print_rows<O: Output>(
    reply: &mut Reply<'_, O>,
    files: Option<Files<'_>>,
    frames: &[FrameAnswer<'_>],
    lines: &[Option<SourceLine>],
)
    ensures { PrintsText (printing O.Output reply.old reply.new) (numbered_lines (spec.frame_row (files_in (option_map files_bytes files.entry)) (map (option_map source_view) lines.now)) 0 frames.now) }
{
    for (row, frame) in frames.iter().enumerate() {
        print_row(reply, files, lines, row, frame);
    }
}

fn print_row<O: Output>(
    reply: &mut Reply<'_, O>,
    files: Option<Files<'_>>,
    lines: &[Option<SourceLine>],
    row: usize,
    frame: &FrameAnswer<'_>,
)
    ensures { PrintsText (printing O.Output reply.old reply.new) (spec.frame_row (files_in (option_map files_bytes files.entry)) (map (option_map source_view) lines.now) row frame.now) }
{
    print_label(reply, b"frames    ", row);
    print_left(reply, 2, print_decimal(row as u128).as_slice());
    print_left(
        reply,
        14,
        print_hexadecimal(u128::from(frame.pc)).as_slice(),
    );
    print_where(reply, frame, frame_file(files, frame));
    print_source(reply, line_of(lines, row));
    reply.print(b"\n");
}

// Prints the source line of a frame, if it is known.
fn print_source<O: Output>(reply: &mut Reply<'_, O>, line: Option<&SourceLine>)
    ensures { PrintsText (printing O.Output reply.old reply.new) (spec.source_text (option_map (λ line. source_view line.now) line.entry)) }
{
    if let Some(line) = line {
        reply.print(b"  ");
        print_name(reply, &line.file);
        reply.print(b":");
        reply.print_decimal(u128::from(line.line));
    }
}

// Prints the place of a frame: that a signal handler returns there, or a place in a function or in its file.
pub(crate) fn print_place<O: Output>(
    reply: &mut Reply<'_, O>,
    frame: &FrameAnswer<'_>,
    file: Option<FileMap<'_>>,
)
    ensures { PrintsText (printing O.Output reply.old reply.new) (spec.place_text frame.now (option_map file_view file.entry)) }
{
    if frame.signal {
        reply.print(b"signal");
    } else {
        print_function(reply, frame.function, file, frame.pc);
    }
}

fn print_function<O: Output>(
    reply: &mut Reply<'_, O>,
    function: Option<Location<'_>>,
    file: Option<FileMap<'_>>,
    pc: u64,
)
    ensures { PrintsText (printing O.Output reply.old reply.new) (spec.function_text function.entry (option_map file_view file.entry) pc) }
{
    match function {
        Some(place) => {
            print_name(reply, place.name);
            reply.print(b"+");
            reply.print_hexadecimal(place.distance);
        }
        None => print_unnamed(reply, file, pc),
    }
}

fn print_unnamed<O: Output>(reply: &mut Reply<'_, O>, file: Option<FileMap<'_>>, pc: u64)
    ensures { PrintsText (printing O.Output reply.old reply.new) (spec.unnamed_text (option_map file_view file.entry) pc) }
{
    match file {
        Some(map) => print_name(reply, &file_place(&map, pc).text),
        None => reply.print(b"?"),
    }
}

/// The last component of a file's name, and the place of a pc in the file.
pub fn file_place(map: &FileMap<'_>, pc: u64) -> Word
    ensures { result.text.items ≡ spec.file_place (file_view map.now) pc }
{
    word_of(&FrameFacts {
        pc,
        is_signal: false,
        function: None,
        file: Some(MappedFile {
            path: map.name,
            start: map.start,
            offset: map.offset,
        }),
        is_vdso: false,
        has_files: true,
    })
}

// Prints the place of a frame, and its file, if that is known.
fn print_where<O: Output>(
    reply: &mut Reply<'_, O>,
    frame: &FrameAnswer<'_>,
    file: Option<FileMap<'_>>,
)
    ensures { PrintsText (printing O.Output reply.old reply.new) (spec.where_text frame.now (option_map file_view file.entry)) }
{
    print_place(reply, frame, file);
    if let Some(map) = file {
        print_spaces(reply, room_of(frame, &map));
        reply.print(b"  ");
        print_name(reply, map.name);
    }
}

// How many spaces stand after the place of a frame in a file, in a column of 24.
fn room_of(frame: &FrameAnswer<'_>, file: &FileMap<'_>) -> usize
    ensures { result ≡ 24 - length (spec.place_text frame.now (Some (file_view file.now))) }
{
    if frame.signal {
        return 18;
    }
    match frame.function {
        Some(place) => room_after(24, place.name, 1 + print_hexadecimal(place.distance).len()),
        None => room_after(24, &file_place(file, frame.pc).text, 0),
    }
}

// Prints how many frames are not shown, if any are.
fn print_more<O: Output>(reply: &mut Reply<'_, O>, count: usize)
    ensures { PrintsText (printing O.Output reply.old reply.new) (spec.more_text count) }
{
    if count > MOST {
        print_rest(reply, count - MOST);
    }
}

fn print_rest<O: Output>(reply: &mut Reply<'_, O>, count: usize)
    ensures { PrintsText (printing O.Output reply.old reply.new) (spec.rest_text count) }
{
    reply.print(MARGIN);
    reply.print(b"and ");
    reply.print_decimal(count as u128);
    reply.print(b" more\n");
}

/// The file that is mapped at a frame, if it is known.
pub fn frame_file<'a>(files: Option<Files<'a>>, frame: &FrameAnswer<'_>) -> Option<FileMap<'a>>
    ensures { option_map file_view result ≡ spec.frame_file (files_in (option_map files_bytes files.entry)) frame.now }
{
    match (files, frame.looked_up) {
        (Some(files), Some(address)) => map_at(files.maps(), address),
        _ => None,
    }
}

/// The first file that is mapped at an address.
pub fn map_at<'a>(maps: FileMaps<'a>, address: u64) -> Option<FileMap<'a>>
    ensures { option_map file_view result ≡ find (is_mapping address) (files_left maps.entry) }
{
    let mut rest = maps;
    while let Some(map) = rest.next() {
        if map.start <= address && address < map.past {
            return Some(map);
        }
    }
    None
}
