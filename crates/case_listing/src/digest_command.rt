// The command.
ghost use Rattle.std.specs.Prelude.{◌≡◌};
ghost use Rattle.case_listing.specs.Digests.{IsNumberSaid, PrintsDigest, PrintsCase, PrintsLooked, digest_line, printed};
ghost use Rattle.script_streams.specs.Printing.{IsDelivered};

use crate::case_words::{find_case, latest_time};
use crate::digest_walk::{ImageDigest, digest_unlocked};
use archive_files::{ArchivePath, Failure, Refusal, take_look, unlocked_told};
use arrayvec::ArrayVec;
use diagnostics::Onlooker;
use disk_model::{Disk, OpenFile};
use inspector_cli::SessionFault;
use intake::ArchiveFault;
use script_streams::{Output, Reply, StreamFault};
use script_words::{decode_text, parse_case_number, parse_number};
use shared_disk::{Looked, SharedDisk, SharedFile, Unlocked};
use std::alloc::Global;
use std::fs::File;
use std::rt::Files;
use std::time::Clock;

// The most bytes of a name as it prints.
const LONGEST: usize = 1_024;

// A case, as a word says it.
#[derive(Clone, Copy)]
enum CaseWord<'a> {
    Number(u32),
    // `last`, `latest`, or its name.
    Name(&'a str),
}

/// Prints `SHA256 LENGTH N` for each of these cases, in their order: the 64 hexadecimal digits of the SHA-256 of its image, how many bytes
/// that has, and the case's number. A case is named by its number, by its name, or as `last` or `latest`. Each one is looked at, read, and
/// looked at again, as `extract` does. An onlooker is shown the progress.
///
/// # Errors
///
/// `BadLine`, before anything is read, if a word is a number that no case has. Else the first case without a digest ends it, and the lines
/// of those before it stay: the refusals of `take_look` of `archive_files`, `NoCase`, and those of `digest_unlocked`. `WriteFailed` if the
/// output failed.
pub fn digest<R: AllocGlobal + Files<File = File> + Clock, O: Output, W: Onlooker>(
    rt: &R,
    place: ArchivePath<'_>,
    cases: &[&str],
    output: &mut O,
    onlooker: &mut W,
) -> Result<(), Failure> {
    let mut words = Vec::new(rt.alloc());
    for case in cases {
        let Some(word) = case_word(case) else {
            return Err(Failure::Aside(Refusal::BadLine));
        };
        if words.push(word).is_err() {
            return Err(Failure::Aside(Refusal::OutOfMemory));
        }
    }
    onlooker.begin("digests", None);
    let done = digest_each(rt, place, &words, output, onlooker);
    onlooker.end();
    done
}

// The meaning of a word. A word that is a number is always one, and names no case.
fn case_word(word: &str) -> Option<CaseWord<'_>>
    ensures { IsNumberSaid word.now result }
{
    match parse_case_number(word.as_bytes()) {
        Some(seq) => Some(CaseWord::Number(seq)),
        None if parse_number(word.as_bytes()).is_some() => None,
        None => Some(CaseWord::Name(word)),
    }
}

fn digest_each<R: AllocGlobal + Files<File = File> + Clock, O: Output, W: Onlooker>(
    rt: &R,
    place: ArchivePath<'_>,
    cases: &[CaseWord<'_>],
    output: &mut O,
    onlooker: &mut W,
) -> Result<(), Failure> {
    for case in cases {
        let seq = match *case {
            CaseWord::Number(seq) => seq,
            CaseWord::Name(name) => number_of(rt, place, name).map_err(|refusal| {
                Failure::Aside(refusal)
            })?,
        };
        digest_case(rt, place, seq, output, onlooker)?;
    }
    Ok(())
}

// The number of the case that has a name now, or whose name prints so.
fn number_of<R: AllocGlobal + Files<File = File> + Clock>(
    rt: &R,
    place: ArchivePath<'_>,
    name: &str,
) -> Result<u32, Refusal> {
    let until = latest_time(rt);
    let looked = take_look(rt, place)?;
    let disk = looked.unlocked(Vec::new(rt.alloc()));
    match (
        find_case(rt.alloc(), disk, name.as_bytes(), until),
        printed_so(name),
    ) {
        (Err(Refusal::Call(ArchiveFault::NoCase)), Some(name)) => {
            let disk = looked.unlocked(Vec::new(rt.alloc()));
            find_case(rt.alloc(), disk, name.as_slice(), until)
        }
        (found, _) => found,
    }
}

// The name that prints as this word, if it has a byte that prints as another one.
fn printed_so(word: &str) -> Option<ArrayVec<u8, 1024>> {
    let word = word.as_bytes();
    if word.len() > LONGEST || !word.contains(&b'\\') {
        return None;
    }
    decode_text(word)
}

// Prints the line of a case.
fn digest_case<R: AllocGlobal + Files<File = File>, O: Output, W: Onlooker>(
    rt: &R,
    place: ArchivePath<'_>,
    seq: u32,
    output: &mut O,
    onlooker: &mut W,
) -> Result<(), Failure>
    ensures { PrintsCase ⟦<SharedFile<OpenFile> as SharedDisk>⟧ ⟦<Unlocked<'static, SharedFile<OpenFile>> as Disk>⟧ seq (printed O.Output output.old) (printed O.Output output.new) result }
{
    digest_looked(rt.alloc(), take_look(rt, place), seq, output, onlooker)
}

// Prints the line of a case, from a look at its archive on, or reports why there was no look.
fn digest_looked<S: SharedDisk + Drop, O: Output, W: Onlooker>(
    alloc: Global,
    looked: Result<Looked<S>, Refusal>,
    seq: u32,
    output: &mut O,
    onlooker: &mut W,
) -> Result<(), Failure>
    ensures { PrintsLooked S.SharedDisk ⟦<Unlocked<'static, S> as Disk>⟧ seq looked (printed O.Output output.old) (printed O.Output output.new) result }
{
    match looked {
        Ok(looked) => match digest_unlocked(alloc, looked, seq, onlooker) {
            Ok(digest) => print_digest(seq, digest, output),
            Err(fault) => Err(unlocked_told(fault)),
        },
        Err(refusal) => Err(Failure::Aside(refusal)),
    }
}

fn print_digest<O: Output>(seq: u32, digest: ImageDigest, output: &mut O) -> Result<(), Failure>
    ensures { PrintsDigest seq digest (printed O.Output output.old) (printed O.Output output.new) result }
{
    match print_line(seq, digest, output) {
        Ok(()) => Ok(()),
        Err(_) => Err(Failure::Faulted(SessionFault::WriteFailed)),
    }
}

fn print_line<O: Output>(seq: u32, digest: ImageDigest, output: &mut O) -> Result<(), StreamFault>
    ensures { IsDelivered (O.taken output.old) (O.failures output.old) (O.taken output.new) (O.failures output.new) (digest_line seq digest) result }
{
    let mut reply = Reply::new(output);
    reply.print_hex(&digest.sha256);
    reply.print(b" ");
    reply.print_decimal(u128::from(digest.length));
    reply.print(b" ");
    reply.print_decimal(u128::from(seq));
    reply.print(b"\n");
    reply.finish()
}
