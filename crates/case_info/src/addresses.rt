// The address that a register of a core gives, for a line that takes one.
ghost use Rattle.std.specs.Prelude.{◌≡◌, ℕ, List, IfOk, Ok};
ghost use Rattle.elf_view.specs.ViewWords.{notes_of};
ghost use Rattle.image_replies.specs.CoreWords.{core_bytes};
ghost use Rattle.case_screens.specs.Core.{notes_in};
ghost use Rattle.elf_view.specs.declared.faults.Want.TheVariants as want;
ghost use Rattle.journal_layout.specs.declared.entry.Kind.TheVariants as kind;
ghost use Rattle.case_screens.specs.RegisterPlaceWords.{place_said};
ghost use Rattle.case_info.specs.Addresses.{AddressOn, SeesAddress, SeesAddressOf, address_by, said};
ghost use Rattle.case_info.specs.Fronts.{IsFront};

use crate::case::{kind_of, number_of};
use crate::front::{core_in, front_of, size_of};
use crate::printing::{refusal_reply, shown, write_text};
use crate::rows::print_refused;
use archive_files::{
    ArchivePath, Failure, Places, Reads, Refusal, find_cases, stay, take_look, unasked,
};
use case_listing::{NamedLine, latest_time};
use case_screens::{Reason, RegisterPlace, core_reason, no_thread, register_place};
use command_words::line_of;
use disk_model::Disk;
use elf_view::Want;
use image_replies::CoreImage;
use intake::{Archive, Settings};
use journal_layout::Kind;
use script_lines::{Question, parse_question};
use script_streams::Output;
use script_words::{print_decimal, print_hexadecimal};
use shared_disk::{Looked, SharedDisk};
use std::alloc::{AllocError, Global};
use std::fs::File;
use std::rt::Files;
use std::str;
use std::time::Clock;
use thread_regs::threads;

// Why an executable has no registers.
pub(crate) const NOT_CORE: Reason<'static> = Reason {
    name: b"NotCore",
    index: None,
};

// The address by the first bytes of a core, or why it has no such address.
fn address_by_front(front: &[u8], at: RegisterPlace) -> Result<u64, Reason<'static>>
    ensures { (image : List ℕ) → IsFront want.Core front.now image → said result ≡ address_by (notes_in image) (place_said at) }
{
    let core = match core_in(front).core {
        Ok(core) => core,
        Err(fault) => return Err(core_reason(fault)),
    };
    address_in_core(&core, at)
}

// The address by the thread that dumped, which comes first.
pub(crate) fn address_in_core(
    core: &CoreImage<'_>,
    at: RegisterPlace,
) -> Result<u64, Reason<'static>>
    ensures { said result ≡ address_by (Ok (notes_of want.Core (core_bytes core.now))) (place_said at) }
{
    match threads(core.notes()).thread(0) {
        Some(thread) => Ok(at.address(&thread)),
        None => Err(no_thread()),
    }
}

// The address in an archive that is open.
fn address_in<D: Disk>(
    alloc: Global,
    archive: &mut Archive<D>,
    seq: u32,
    at: RegisterPlace,
) -> Result<Result<u64, Reason<'static>>, Refusal>
    ensures { IfOk result (λ address. SeesAddress D.Disk archive.old seq (place_said at) (said address)) }
{
    match kind_of(archive, seq)? {
        Kind::Core => Ok(core_address(alloc, archive, seq, at)?),
        Kind::Exec => Ok(Err(NOT_CORE)),
    }
}

// The address of a case that is a core.
fn core_address<D: Disk>(
    alloc: Global,
    archive: &mut Archive<D>,
    seq: u32,
    at: RegisterPlace,
) -> Result<Result<u64, Reason<'static>>, Refusal>
    ensures { IfOk result (λ address. SeesAddressOf D.Disk archive.old seq (place_said at) (said address) kind.Core) }
{
    let size = size_of(seq, archive)?;
    let front = front_of(alloc, seq, size, Want::Core, archive)?;
    Ok(address_by_front(&front, at))
}

// Opens the archive on a disk, and finds the address.
fn address_on<D: Disk + Drop>(
    alloc: Global,
    disk: D,
    seq: u32,
    at: RegisterPlace,
) -> Result<Result<u64, Reason<'static>>, Refusal>
    ensures { AddressOn D.Disk seq (place_said at) disk result }
{
    match Archive::open(alloc, disk, Settings { limit: 0 }) {
        Ok(archive) => {
            let mut archive = archive;
            address_in(alloc, &mut archive, seq, at)
        }
        Err((fault, _)) => Err(Refusal::Open(fault)),
    }
}

// The number of the case, and the address, if the case is found again.
fn address_looked<S: SharedDisk + Drop>(
    alloc: Global,
    looked: Looked<S>,
    case: &[u8],
    until: u64,
    at: RegisterPlace,
) -> Result<(u32, Result<u64, Reason<'static>>), Refusal> {
    let seq = number_of(alloc, looked.unlocked(Vec::new(alloc)), case, until)?;
    let reads = Reads::Memory { seq };
    let found = find_cases(alloc, looked.unlocked(Vec::new(alloc)), reads);
    let Places { numbers, ranges } = found.map_err(|fault| unasked(fault))?;
    let address = address_on(alloc, looked.unlocked(ranges), seq, at)?;
    match stay(alloc, looked.into_shared(), &numbers) {
        Ok(()) => Ok((seq, address)),
        Err(fault) => Err(unasked(fault)),
    }
}

/// The register in the third word of a line that has an address there: `dump` or `at`.
pub fn register_in(words: &[&str]) -> Option<RegisterPlace> {
    match words {
        ["dump" | "at", _, word, ..] => register_place(word.as_bytes()),
        _ => None,
    }
}

/// The question of a line with this number for the case in its second word and this address in its third one.
///
/// # Errors
///
/// There is no memory for the line.
pub fn question_with(
    alloc: Global,
    words: &[&str],
    seq: u32,
    address: u64,
) -> Result<Option<Question>, AllocError> {
    let [first, _, _, others @ ..] = words else {
        return Ok(None);
    };
    let number = print_decimal(u128::from(seq));
    let digits = print_hexadecimal(u128::from(address));
    let mut line = Vec::new(alloc);
    line.push(*first)?;
    line.push(str::from_utf8(number.as_slice()).unwrap_or(""))?;
    line.push(str::from_utf8(digits.as_slice()).unwrap_or(""))?;
    for word in others {
        line.push(*word)?;
    }
    Ok(parse_question(&line_of(alloc, &line)?))
}

/// The question of a line whose third word is a register, by the registers of the thread that dumped, from a look at the archive. If the case has no
/// such register, the reply to the line is printed, which says why.
///
/// # Errors
///
/// The refusals of `take_look` of `archive_files` and of an opening. `NoCase`: there is no such case, or it was deleted meanwhile. `Told`: the
/// reply is printed. `WriteFailed` if it could not be written.
pub fn question_at<R: AllocGlobal + Files<File = File> + Clock, O: Output>(
    rt: &R,
    place: ArchivePath<'_>,
    line: NamedLine<'_>,
    at: RegisterPlace,
    is_json: bool,
    output: &mut O,
) -> Result<Question, Failure> {
    let alloc = rt.alloc();
    let until = latest_time(rt);
    let case = line.words.get(1).copied().unwrap_or("");
    let found = match take_look(rt, place) {
        Ok(looked) => address_looked(alloc, looked, case.as_bytes(), until, at),
        Err(refusal) => Err(refusal),
    };
    match found {
        Ok((seq, Ok(address))) => match question_with(alloc, line.words, seq, address)? {
            Some(question) => Ok(question.choosing(line.by_build)),
            None => Err(Failure::Refused(Refusal::BadLine)),
        },
        Ok((_, Err(reason))) => Err(print_reason(alloc, is_json, &reason, output)),
        Err(refusal) => {
            shown(alloc, is_json, Err(Failure::Refused(refusal)), output)?;
            Err(Failure::Refused(refusal))
        }
    }
}

// Prints the reply of a line whose case has no such register.
fn print_reason<O: Output>(
    alloc: Global,
    is_json: bool,
    reason: &Reason<'_>,
    output: &mut O,
) -> Failure {
    let text = match refusal_reply(alloc, reason) {
        Ok(text) => text,
        Err(refusal) => return Failure::Refused(refusal),
    };
    let told = if is_json {
        print_refused(alloc, text.text(), output)
    } else {
        write_text(text.text(), output)
    };
    match told {
        Ok(()) => Failure::Told,
        Err(failure) => failure,
    }
}
