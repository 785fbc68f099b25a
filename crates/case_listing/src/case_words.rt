// Cases as people name them, for words that are case numbers in a script.
ghost use Rattle.std.specs.Prelude.{◌≡◌, IfOk, false, map};
ghost use Rattle.case_tables.specs.Named.{named_number};
ghost use Rattle.intake.specs.Parts.{state_of};
ghost use Rattle.case_listing.specs.Naming.{AsksWith, NamesCase, NamesOn, number_found};

use archive_files::{ArchivePath, Failure, Refusal, ask, extract, take_look};
use arrayvec::ArrayVec;
use case_tables::number_named;
use command_words::line_of;
use diagnostics::Onlooker;
use disk_model::Disk;
use intake::{Archive, ArchiveFault, Settings};
use script_lines::{Question, parse_question};
use script_streams::Output;
use script_words::{decode_text, parse_number, print_decimal};
use std::alloc::{AllocError, Global};
use std::fs::File;
use std::rt::Files;
use std::str;
use std::time::Clock;

// The most bytes of a word of a line.
const LONGEST: usize = 1_024;

// A day, in seconds. A core whose time is later than in a day is of a machine whose clock was not set.
const DAY: u64 = 86_400;

// Whether a word is a number, as a script has it. Then it names no case, whatever the case of that number is.
fn is_number(word: &str) -> bool {
    parse_number(word.as_bytes()).is_some()
}

/// The request of a line whose second word names a case instead of giving its number, as
/// if the number were 1. `None` if that word is a number, or these words are no such line.
///
/// # Errors
///
/// `AllocError` if there is no memory for the line.
pub fn named_question(alloc: Global, words: &[&str]) -> Result<Option<Question>, AllocError>
    ensures named { IfOk result (NamesCase (map (λ word. word.now) words.now)) }
{
    match words.get(1) {
        Some(word) if !is_number(word) => numbered(alloc, words, "1"),
        _ => Ok(None),
    }
}

// The request of the line of these words with this number for the case, which is the second word. Other words stay, even if they have its
// text.
fn numbered(alloc: Global, words: &[&str], number: &str) -> Result<Option<Question>, AllocError>
    ensures with_second { IfOk result (AsksWith number.now (map (λ word. word.now) words.now)) }
{
    let Some((first, rest)) = words.split_first() else {
        return Ok(None);
    };
    let Some((_, others)) = rest.split_first() else {
        return Ok(None);
    };
    let mut line = Vec::new(alloc);
    line.push(*first)?;
    line.push(number)?;
    for word in others {
        line.push(*word)?;
    }
    Ok(parse_question(&line_of(alloc, &line)?))
}

/// The latest time of a core, in seconds since the epoch, that `latest` takes to be one: a day from now. Every time if the clock says none.
pub fn latest_time<R: Clock>(rt: &R) -> u64 {
    match rt.since_1970() {
        Ok(now) => now.as_secs().saturating_add(DAY),
        Err(_) => u64::MAX,
    }
}

// The number of the case that a word names, in the archive as it is now: by its name, or as the name is printed.
fn number_of<R: AllocGlobal + Files<File = File> + Clock>(
    rt: &R,
    place: ArchivePath<'_>,
    word: &str,
) -> Result<u32, Refusal> {
    let until = latest_time(rt);
    let looked = take_look(rt, place)?;
    let found = find_case(
        rt.alloc(),
        looked.unlocked(Vec::new(rt.alloc())),
        word.as_bytes(),
        until,
    );
    match (found, printed(word)) {
        (Err(Refusal::Call(ArchiveFault::NoCase)), Some(name)) => {
            let disk = looked.unlocked(Vec::new(rt.alloc()));
            find_case(rt.alloc(), disk, name.as_slice(), until)
        }
        (found, _) => found,
    }
}

// The name that prints as this word, if it has a byte that prints as another one.
fn printed(word: &str) -> Option<ArrayVec<u8, 1024>> {
    let word = word.as_bytes();
    if word.len() > LONGEST || !word.contains(&b'\\') {
        return None;
    }
    decode_text(word)
}

/// The number of the case that a word names by no number, in the archive on a disk: by `last`, `latest` or its name, as `number_named` of
/// `case_tables` has it.
///
/// # Errors
///
/// The fault of an opening that is refused. `NoCase` if no case has this name.
pub fn find_case<D: Disk + Drop>(
    alloc: Global,
    disk: D,
    word: &[u8],
    until: u64,
) -> Result<u32, Refusal>
    ensures { NamesOn D.Disk until word.now disk result }
{
    match Archive::open(alloc, disk, Settings { limit: 0 }) {
        Ok(archive) => find_in(&archive, word, until),
        Err((fault, _)) => Err(Refusal::Open(fault)),
    }
}

// The number of the case of an open archive that a word names.
fn find_in<D: Disk>(archive: &Archive<D>, word: &[u8], until: u64) -> Result<u32, Refusal>
    requires runs { archive.now.stopped ≡ false }
    ensures { result ≡ number_found (named_number until word.now (state_of archive.now).cases) }
{
    match archive.cases() {
        Ok(cases) => number_found(number_named(cases, word, until)),
        Err(fault) => Err(Refusal::Call(fault)),
    }
}

fn number_found(number: Option<u32>) -> Result<u32, Refusal>
    ensures { result ≡ number_found number }
{
    match number {
        Some(number) => Ok(number),
        None => Err(Refusal::Call(ArchiveFault::NoCase)),
    }
}

/// Writes the image of a case that a word names.
///
/// # Errors
///
/// Those of `extract` of `archive_files`. If the word is no number, the refusal of the look at the archive, and `NoCase` if no case
/// has this name.
pub fn extract_case<R: AllocGlobal + Files<File = File> + Clock, O: Output, W: Onlooker>(
    rt: &R,
    place: ArchivePath<'_>,
    case: &str,
    file: Option<&str>,
    output: &mut O,
    onlooker: &mut W,
) -> Result<(), Failure> {
    if is_number(case) {
        return extract(rt, place, case, file, output, onlooker);
    }
    let number = number_of(rt, place, case).map_err(|refusal| Failure::Aside(refusal))?;
    let digits = print_decimal(u128::from(number));
    match str::from_utf8(digits.as_slice()) {
        Ok(number) => extract(rt, place, number, file, output, onlooker),
        Err(_) => Err(Failure::Aside(Refusal::BadLine)),
    }
}

/// A line whose second word may name a case, instead of giving its number.
#[derive(Clone, Copy)]
pub struct NamedLine<'w> {
    /// Its words.
    pub words: &'w [&'w str],
    /// Whether executables are chosen by build.
    pub by_build: bool,
}

/// Answers a line whose second word names a case.
///
/// # Errors
///
/// Those of `ask` of `archive_files`. Before, the refusal of the look at the archive, and `NoCase` if no case has this name.
pub fn ask_case<R: AllocGlobal + Files<File = File> + Clock, O: Output, W: Onlooker>(
    rt: &R,
    place: ArchivePath<'_>,
    line: NamedLine<'_>,
    output: &mut O,
    onlooker: &mut W,
) -> Result<(), Failure> {
    let name = line.words.get(1).copied().unwrap_or("");
    let digits = print_decimal(u128::from(number_of(rt, place, name)?));
    let number = str::from_utf8(digits.as_slice()).unwrap_or("");
    match numbered(rt.alloc(), line.words, number)? {
        Some(question) => ask(
            rt,
            place,
            question.choosing(line.by_build),
            output,
            onlooker,
        ),
        None => Err(Failure::Refused(Refusal::BadLine)),
    }
}
