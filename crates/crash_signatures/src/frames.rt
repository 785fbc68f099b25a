//! The word of a frame.
ghost use Rattle.std.specs.Prelude.{◌≡◌, ◌++◌, codes, take};
ghost use Rattle.std.specs.Option.{option_map};
ghost use Rattle.script_words.specs.Printing.{hexadecimal};
ghost use Rattle.crash_signatures.specs.Frames as spec;
ghost use Rattle.crash_signatures.specs.Places.{place_of};
ghost use Rattle.crash_signatures.specs.WordViews.{file_said, frame_said, said};

use crate::names::{base_name, function_word};
use crate::steps::ends_process;
use crate::words::{Text, Word, add, joined};
use script_words::print_hexadecimal;

/// The known facts about a frame.
#[derive(Clone, Copy)]
pub struct FrameFacts<'a> {
    /// The frame's pc.
    pub pc: u64,
    /// It is the frame that the kernel made for a signal.
    pub is_signal: bool,
    /// The function at the address that is looked up, if its name is known.
    pub function: Option<&'a [u8]>,
    /// The file that is mapped at that address, by NT_FILE.
    pub file: Option<MappedFile<'a>>,
    /// The address is in the vdso.
    pub is_vdso: bool,
    /// The core says which files are mapped: it has an NT_FILE.
    pub has_files: bool,
}

/// A range of memory into which a file is mapped, as NT_FILE has it.
#[derive(Clone, Copy)]
pub struct MappedFile<'a> {
    /// The file's path.
    pub path: &'a [u8],
    /// Where the range begins.
    pub start: u64,
    /// The place in the file that is mapped there, in bytes.
    pub offset: u64,
}

/// The word of a frame.
///
/// It is `<signal>` for the kernel's frame of a signal, else the function's name without the text
/// that compilers add to it, else the name of the mapped file and the pc's place in it, else a mark:
/// `<vdso>`, `<null>` for a pc below 4096, `<wild>`, or `?` if nothing says which files are mapped.
pub fn word_of(frame: &FrameFacts<'_>) -> Word
    ensures { said result ≡ spec.word_of (frame_said frame.now) }
{
    if frame.is_signal {
        return mark(b"<signal>");
    }
    if let Some(name) = frame.function {
        return named(function_word(name));
    }
    match frame.file {
        Some(file) => named(place_word(&file, frame.pc)),
        None => mark(place_mark(frame)),
    }
}

/// The place of a frame in its build: the name of the mapped file, and the pc's place in it, as `word_of` has them. `None` if no
/// file is mapped there, or if the frame's function is one by which a process ends itself.
pub fn place_of(frame: &FrameFacts<'_>) -> Option<Text>
    ensures { option_map (λ t. t.items) result ≡ place_of (frame_said frame.now) }
{
    if ends_process(&word_of(frame)) {
        return None;
    }
    match frame.file {
        Some(file) => Some(place_word(&file, frame.pc)),
        None => None,
    }
}

// A word that says which kind of place a frame is at.
pub(crate) fn mark(text: &[u8]) -> Word
    ensures { said result ≡ spec.mark text.now }
{
    Word {
        text: joined(text, b""),
        is_mark: true,
    }
}

fn named(text: Text) -> Word
    ensures { said result ≡ spec.named text.items }
{
    Word {
        text,
        is_mark: false,
    }
}

// The name of a mapped file, and the place of an address in it.
#[tactic(auto, using(crate::proofs::TextLemmas::joins_more))]
fn place_word(file: &MappedFile<'_>, pc: u64) -> Text
    ensures { result.items ≡ take 256 (spec.place_text (file_said file.now) pc) }
{
    let place = u128::from(pc.saturating_sub(file.start)) + u128::from(file.offset);
    let mut text = joined(base_name(file.path), b"+");
    add(&mut text, print_hexadecimal(place).as_slice());
    text
}

// The mark of a frame at which no file is mapped.
fn place_mark(frame: &FrameFacts<'_>) -> &'static [u8]
    ensures { result.now ≡ spec.place_mark (frame_said frame.now) }
{
    if frame.is_vdso {
        b"<vdso>"
    } else if frame.pc < 4096 {
        b"<null>"
    } else if frame.has_files {
        b"<wild>"
    } else {
        b"?"
    }
}
