// Lines about a core that people ask, and whose answers are printed from values: `dump --words`, words of its memory and the targets that they point
// to; and `regs --plain` and `unwind --plain`, the registers of a thread and its frames, with the same.
ghost use Rattle.std.specs.Prelude.{◌≡◌, ◌+◌, ◌*◌, ◌^◌, ◌≤◌, length};
ghost use Rattle.address_space.specs.SpaceWords.{core_of};
ghost use Rattle.case_queries.specs.Fronts.{HasSize, IsSoundFront};
ghost use Rattle.case_queries.specs.ToldWords.{IsToldBy};
ghost use Rattle.elf_view.specs.declared.faults.Want.TheVariants as want;
ghost use Rattle.image_replies.specs.CoreWords.{core_bytes};
ghost use Rattle.intake.specs.Parts.{state_of};

use crate::addresses::{NOT_CORE, address_in_core};
use crate::case::{kind_of, number_of};
use crate::front::{core_in, front_of, size_of};
use crate::gathered::{debug_files_of, executables_of, refusal_of, told_of};
use crate::printing::{refusal_reply, write_text};
use address_space::AddressSpace;
use archive_files::{
    ArchivePath, Collected, Failure, Places, Reads, Refusal, find_cases, stay, take_look, unasked,
};
use case_listing::{latest_time, send_plain};
use case_queries::{CaseImage, StoredExecutable, ToldFiles, chosen_executables, core_facts};
use case_screens::{
    Reason, RegisterPlace, WordMemory, core_reason, file_place, frame_file, no_thread,
    print_register, print_word, register_place, thread_count,
};
use core_crashes::words_in_case;
use core_notes::Files as MappedFiles;
use disk_model::Disk;
use elf_view::Want;
use frame_replies::{FrameAnswer, FramesAnswer, print_frame_place, print_stop};
use image_replies::CoreImage;
use intake::{Archive, Settings};
use journal_layout::Kind;
use memory_replies::{NamedExecutable, is_out_of_range, named_executables, space_with};
use script_streams::{Output, Reply, print_ok};
use script_words::{parse_case_number, parse_number};
use shared_disk::{Looked, SharedDisk};
use std::alloc::Global;
use std::fs::File;
use std::rt::Files;
use std::time::Clock;
use thread_regs::{Reg, threads};

// The refusal of memory that ends past the last address, or is too long.
const RANGE: Reason<'static> = Reason {
    name: b"Range",
    index: None,
};

// How many bytes a word has.
const WORD: u64 = 8;

/// A line about a core whose answer is printed from values.
#[derive(Clone, Copy)]
pub struct CoreLine<'a> {
    /// The case, as the words name it.
    pub case: &'a str,
    /// The question about it.
    pub asked: CoreQuestion,
}

/// The question of a line about a core.
#[derive(Clone, Copy)]
pub enum CoreQuestion {
    /// `dump CASE PLACE LENGTH`: the words of so many bytes of its memory, from a place on.
    Words(DumpedPlace, u64),
    /// `regs CASE THREAD`: the registers of the thread of this number.
    Registers(u64),
    /// `unwind CASE THREAD`: the frames of the thread of this number.
    Frames(u64),
}

/// The place at which the wanted memory begins.
#[derive(Clone, Copy)]
pub enum DumpedPlace {
    /// At an address.
    Address(u64),
    /// At a register's address.
    Register(RegisterPlace),
}

// The text to print, and whether the line was not refused.
#[derive(Drop)]
struct Shown {
    text: Collected,
    is_done: bool,
}

/// The question of a line's words, if the line is `dump`.
pub fn dumped_words<'a>(words: &[&'a str]) -> Option<CoreLine<'a>> {
    let ["dump", case, place, length] = words else {
        return None;
    };
    Some(CoreLine {
        case: *case,
        asked: CoreQuestion::Words(place_in(place)?, parse_number(length.as_bytes())?),
    })
}

/// The question of a line's words, if it is `regs` or `unwind` and no word of it is a number that it can't have.
pub fn thread_words<'a>(words: &[&'a str]) -> Option<CoreLine<'a>> {
    let [line, case, thread] = words else {
        return None;
    };
    if parse_number(case.as_bytes()).is_some() && parse_case_number(case.as_bytes()).is_none() {
        return None;
    }
    let thread = parse_number(thread.as_bytes())?;
    let asked = match *line {
        "regs" => CoreQuestion::Registers(thread),
        "unwind" => CoreQuestion::Frames(thread),
        _ => return None,
    };
    Some(CoreLine { case: *case, asked })
}

fn place_in(word: &str) -> Option<DumpedPlace> {
    match parse_number(word.as_bytes()) {
        Some(address) => Some(DumpedPlace::Address(address)),
        None => Some(DumpedPlace::Register(register_place(word.as_bytes())?)),
    }
}

/// Prints the answer to a line about a core, from a look at the archive, by the executables that are stored for the core. Words of its memory: a row
/// for each eight bytes, with the target that they point to (`print_word` of `case_screens`); bytes after the last whole word are left out. The registers
/// of a thread: a row for each, with the target that it points to (`print_register`). The frames of a thread: the rows of the script's reply, but a
/// frame without a function has its file's last component and its place in the file, if a file is mapped there. Why a line is refused is printed as
/// the script's reply says it.
///
/// # Errors
///
/// The refusals of `take_look` of `archive_files` and of an opening. `NoCase`: there is no such case, or it or an executable was deleted meanwhile.
/// `OutOfMemory` and `Disk`: nothing is printed. `Told`: the line is refused. `WriteFailed` if the text could not be written.
pub fn ask_core<R: AllocGlobal + Files<File = File> + Clock, O: Output>(
    rt: &R,
    place: ArchivePath<'_>,
    line: CoreLine<'_>,
    output: &mut O,
) -> Result<(), Failure> {
    let alloc = rt.alloc();
    let until = latest_time(rt);
    let found = match take_look(rt, place) {
        Ok(looked) => answer_looked(alloc, looked, line, until),
        Err(refusal) => Err(refusal),
    };
    match found {
        Ok(shown) => {
            write_answer(shown.text.text(), line.asked, output)?;
            if shown.is_done {
                Ok(())
            } else {
                Err(Failure::Told)
            }
        }
        Err(refusal) => Err(Failure::Refused(refusal)),
    }
}

// Writes an answer. The rows of registers and of frames are those of a reply, and are written without its escapes.
fn write_answer<O: Output>(
    text: &[u8],
    asked: CoreQuestion,
    output: &mut O,
) -> Result<(), Failure> {
    match asked {
        CoreQuestion::Words(..) => write_text(text, output),
        CoreQuestion::Registers(_) | CoreQuestion::Frames(_) => Ok(send_plain(text, output)?),
    }
}

// The text, once all cases that were read are found again.
fn answer_looked<S: SharedDisk + Drop>(
    alloc: Global,
    looked: Looked<S>,
    line: CoreLine<'_>,
    until: u64,
) -> Result<Shown, Refusal> {
    let case = line.case.as_bytes();
    let seq = number_of(alloc, looked.unlocked(Vec::new(alloc)), case, until)?;
    let reads = Reads::Memory { seq };
    let found = find_cases(alloc, looked.unlocked(Vec::new(alloc)), reads);
    let Places { numbers, ranges } = found.map_err(|fault| unasked(fault))?;
    let shown = answer_over(alloc, looked.unlocked(ranges), seq, line.asked)?;
    match stay(alloc, looked.into_shared(), &numbers) {
        Ok(()) => Ok(shown),
        Err(fault) => Err(unasked(fault)),
    }
}

// Opens the archive on a disk, and puts the answer into a text.
fn answer_over<D: Disk + Drop>(
    alloc: Global,
    disk: D,
    seq: u32,
    asked: CoreQuestion,
) -> Result<Shown, Refusal> {
    match Archive::open(alloc, disk, Settings { limit: 0 }) {
        Ok(archive) => {
            let mut archive = archive;
            match kind_of(&archive, seq)? {
                Kind::Core => Ok(answer_of_core(alloc, &mut archive, seq, asked)?),
                Kind::Exec => Ok(refused(alloc, &NOT_CORE)?),
            }
        }
        Err((fault, _)) => Err(Refusal::Open(fault)),
    }
}

// The question about a core, once its headers and notes are known.
#[derive(Clone, Copy)]
enum Known {
    Pointers(Pointers),
    Frames(u64),
}

// The values that are shown with the targets that they point to.
#[derive(Clone, Copy)]
enum Pointers {
    Words(WordRange),
    Registers(u64),
}

// Words of memory, from an address on.
#[derive(Clone, Copy)]
struct WordRange {
    first: u64,
    count: u64,
    ghost in_range: { first + 8 * count ≤ 2 ^ 64 },
}

// The question, or why the core can't answer it.
fn checked(core: &CoreImage<'_>, asked: CoreQuestion) -> Result<Known, Reason<'static>> {
    match asked {
        CoreQuestion::Words(place, bytes) => {
            let range = range_from(first_of(core, place)?, bytes)?;
            Ok(Known::Pointers(Pointers::Words(range)))
        }
        CoreQuestion::Registers(thread) => {
            Ok(Known::Pointers(Pointers::Registers(number_in(core, thread)?)))
        }
        CoreQuestion::Frames(thread) => Ok(Known::Frames(number_in(core, thread)?)),
    }
}

// The number of a thread, if the core has it.
fn number_in(core: &CoreImage<'_>, thread: u64) -> Result<u64, Reason<'static>> {
    if thread < thread_count(core) {
        Ok(thread)
    } else {
        Err(no_thread())
    }
}

// The whole words of so many bytes, if they don't end past the last address.
fn range_from(first: u64, bytes: u64) -> Result<WordRange, Reason<'static>> {
    if is_out_of_range(first, bytes) {
        return Err(RANGE);
    }
    Ok(WordRange {
        first,
        count: bytes / WORD,
    })
}

// The answer of a core, or why it has no answer.
fn answer_of_core<D: Disk>(
    alloc: Global,
    archive: &mut Archive<D>,
    seq: u32,
    asked: CoreQuestion,
) -> Result<Shown, Refusal> {
    let size = size_of(seq, archive)?;
    let front = front_of(alloc, seq, size, Want::Core, archive)?;
    let core = match core_in(&front).core {
        Ok(core) => core,
        Err(fault) => return Ok(refused(alloc, &core_reason(fault))?),
    };
    let known = match checked(&core, asked) {
        Ok(known) => known,
        Err(reason) => return Ok(refused(alloc, &reason)?),
    };
    let elf = core.elf();
    let image = CaseImage {
        seq,
        size,
        front: elf.image(),
    };
    let told = told_of(alloc, image, &core, archive)?;
    let executables = executables_of(alloc, &told, archive)?;
    let debug_files = debug_files_of(alloc, &told, &executables, archive)?;
    match known {
        Known::Pointers(pointers) => Ok(put_pointers(
            alloc,
            archive,
            image,
            &core,
            told,
            &executables,
            &debug_files,
            pointers,
        )?),
        Known::Frames(thread) => Ok(put_thread(
            alloc,
            archive,
            image,
            &core,
            told,
            &executables,
            &debug_files,
            thread,
        )?),
    }
}

// Puts the frames of a thread into a text, if the core has it.
fn put_thread<'a, D: Disk>(
    alloc: Global,
    archive: &mut Archive<D>,
    image: CaseImage<'_>,
    core: &CoreImage<'a>,
    told: ToldFiles<'a>,
    executables: &'a [StoredExecutable],
    debug_files: &'a [StoredExecutable],
    thread: u64,
) -> Result<Shown, Refusal>
    requires has { HasSize (state_of archive.old) image.seq image.size }
    requires short { length image.front.now ≤ image.size }
    requires front { core_bytes core.now ≡ image.front.now }
    requires sound { IsSoundFront want.Core image.front.now }
    requires told { IsToldBy image told }
{
    let found = core_facts(
        alloc,
        image,
        core,
        told,
        executables,
        debug_files,
        thread.saturating_add(1),
        0,
        archive,
    );
    let facts = match found {
        Ok(facts) => facts,
        Err(fault) => return Err(refusal_of(fault)),
    };
    match facts.unwound.last() {
        Some(Some(frames)) => put_frames(alloc, core.notes().files(), frames),
        _ => Ok(refused(alloc, &no_thread())?),
    }
}

// Puts a row for each frame into a text, and why no other comes.
fn put_frames(
    alloc: Global,
    files: Option<MappedFiles<'_>>,
    frames: &FramesAnswer<'_>,
) -> Result<Shown, Refusal> {
    let mut text = Collected::new(alloc);
    let mut reply = Reply::new(&mut text);
    for (row, frame) in frames.frames.iter().enumerate() {
        print_frame(&mut reply, files, row, frame);
    }
    print_stop(&mut reply, frames.stop);
    print_ok(&mut reply);
    match reply.finish() {
        Ok(()) => Ok(Shown {
            text,
            is_done: true,
        }),
        Err(_) => Err(Refusal::OutOfMemory),
    }
}

fn print_frame<O: Output>(
    reply: &mut Reply<'_, O>,
    files: Option<MappedFiles<'_>>,
    row: usize,
    frame: &FrameAnswer<'_>,
) {
    reply.print_decimal(row as u128);
    reply.print(b" ");
    reply.print_hexadecimal(u128::from(frame.pc));
    reply.print(b" ");
    match (
        frame.signal || frame.function.is_some(),
        frame_file(files, frame),
    ) {
        (false, Some(map)) => reply.print_text(&file_place(&map, frame.pc).text),
        _ => print_frame_place(reply, frame),
    }
    reply.print(b" sp ");
    print_known(reply, frame.stack);
    if row == 0 {
        reply.print(b" ra ");
        print_known(reply, frame.returns);
    }
    reply.print(b"\n");
}

// Prints a number, if it is known.
fn print_known<O: Output>(reply: &mut Reply<'_, O>, number: Option<u64>) {
    match number {
        Some(number) => reply.print_hexadecimal(u128::from(number)),
        None => reply.print(b"?"),
    }
}

// The address at which the memory begins.
fn first_of(core: &CoreImage<'_>, place: DumpedPlace) -> Result<u64, Reason<'static>> {
    match place {
        DumpedPlace::Address(address) => Ok(address),
        DumpedPlace::Register(at) => address_in_core(core, at),
    }
}

// Puts words of a core's memory, or the registers of a thread, into a text, with the targets that they point to.
fn put_pointers<'a, D: Disk>(
    alloc: Global,
    archive: &mut Archive<D>,
    image: CaseImage<'_>,
    core: &CoreImage<'a>,
    told: ToldFiles<'a>,
    executables: &'a [StoredExecutable],
    debug_files: &'a [StoredExecutable],
    pointers: Pointers,
) -> Result<Shown, Refusal>
    requires has { HasSize (state_of archive.old) image.seq image.size }
    requires front { core_bytes core.now ≡ image.front.now }
{
    let chosen = chosen_executables(alloc, &told, executables, debug_files)?;
    let space = space_with(alloc, core, &chosen.used)?;
    let named = named_executables(alloc, &chosen.used, &chosen.debugs)?;
    match pointers {
        Pointers::Words(range) => put_words(alloc, archive, image, core, &space, &named, range),
        Pointers::Registers(thread) => put_registers(alloc, core, &space, &named, thread),
    }
}

// Puts so many words of a core's memory into a text.
fn put_words<'a, D: Disk>(
    alloc: Global,
    archive: &mut Archive<D>,
    image: CaseImage<'_>,
    core: &CoreImage<'a>,
    space: &AddressSpace<'a>,
    named: &[NamedExecutable<'a>],
    range: WordRange,
) -> Result<Shown, Refusal>
    requires has { HasSize (state_of archive.old) image.seq image.size }
    requires own { image.front.now ≡ core_of space.now }
{
    let found = words_in_case(
        alloc,
        image.seq,
        image.size,
        image.front,
        space,
        range.first,
        range.count,
        archive,
    );
    let words = match found {
        Ok(words) => words,
        Err(fault) => return Err(Refusal::Call(fault)),
    };
    put_rows(alloc, core, space, named, range.first, &words)
}

// Puts a row for each register of a thread into a text.
fn put_registers<'a>(
    alloc: Global,
    core: &CoreImage<'a>,
    space: &AddressSpace<'a>,
    named: &[NamedExecutable<'a>],
    number: u64,
) -> Result<Shown, Refusal> {
    let Some(thread) = threads(core.notes()).thread(number) else {
        return Ok(refused(alloc, &no_thread())?);
    };
    let mut text = Collected::new(alloc);
    let mut reply = Reply::new(&mut text);
    let memory = WordMemory { core, space, named };
    for word in 0..32 {
        let register = Reg::of_word(word);
        let value = thread.register(register);
        print_register(&mut reply, memory, register.name().as_bytes(), value);
    }
    print_ok(&mut reply);
    match reply.finish() {
        Ok(()) => Ok(Shown {
            text,
            is_done: true,
        }),
        Err(_) => Err(Refusal::OutOfMemory),
    }
}

// Puts a row for each word into a text.
fn put_rows<'a>(
    alloc: Global,
    core: &CoreImage<'a>,
    space: &AddressSpace<'a>,
    named: &[NamedExecutable<'a>],
    first: u64,
    words: &[Option<u64>],
) -> Result<Shown, Refusal> {
    let mut text = Collected::new(alloc);
    let mut reply = Reply::new(&mut text);
    let mut address = first;
    for word in words {
        let memory = WordMemory { core, space, named };
        print_word(&mut reply, memory, address, *word);
        address = address.wrapping_add(WORD);
    }
    match reply.finish() {
        Ok(()) => Ok(Shown {
            text,
            is_done: true,
        }),
        Err(_) => Err(Refusal::OutOfMemory),
    }
}

// The script's reply to a line that is refused.
fn refused(alloc: Global, reason: &Reason<'_>) -> Result<Shown, Refusal> {
    Ok(Shown {
        text: refusal_reply(alloc, reason)?,
        is_done: false,
    })
}
