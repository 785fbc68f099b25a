// The cases that would go if cases were retired.
ghost use Rattle.std.specs.Prelude.{◌≡◌, ◌+◌, ◌∷◌, codes, IfOk, IfSome, OnOk, Option, None, Some, Result, Ok, Err, false, map, true};
ghost use Rattle.std.specs.List.Sorted.{IsStrictlyIncreasing};
ghost use Rattle.command_words.specs.Lines.{joined};
ghost use Rattle.script_lines.specs.Said.{retire_by, said};
ghost use Rattle.case_listing.specs.Foreseeing.{IsPolicyOf, Foresees, ForeseenIn, ForeseenTold, sent_told};
ghost use Rattle.intake.specs.Parts.{state_of};
ghost use Rattle.intake.specs.Retiring.{brief_of_entry};
ghost use Rattle.retention.specs.Rule.{IsDecision, seq_of};
ghost use Rattle.journal_layout.specs.Case.{case_of};

use archive_files::{ArchivePath, Failure, Refusal, take_look};
use archive_replies::print_retired;
use command_words::line_of;
use disk_model::Disk;
use inspector_cli::SessionFault;
use intake::{Archive, Settings};
use journal_layout::Entry;
use retention::{Brief, Decision, Policy, decide};
use script_lines::{Call, Question, parse_question};
use script_streams::{Output, Reply, StreamFault};
use std::alloc::{AllocError, Global};
use std::fs::File;
use std::rt::Files;

/// The policy by which cases would be retired, if these words ask for that: `would-retire`, and the words of `retire`.
///
/// # Errors
///
/// `NoLine` if the words of `retire` are wrong. `OutOfMemory` if there is no memory for the line.
pub fn foreseen_by(alloc: Global, words: &[&str]) -> Result<Option<Policy>, Refusal>
    ensures asked { IfOk result (IsPolicyOf (map (λ word. word.now) words.now)) }
{
    let Some((first, others)) = words.split_first() else {
        return Ok(None);
    };
    if *first != "would-retire" {
        return Ok(None);
    }
    Ok(Some(retired_by(alloc, others)?))
}

// The policy of `retire` with these words.
fn retired_by(alloc: Global, words: &[&str]) -> Result<Policy, Refusal>
    ensures { IfOk result (λ policy. said (joined (codes "retire" ∷ map (λ word. word.now) words.now)) ≡ retire_by policy) }
{
    match parse_question(&retire_line(alloc, words)?) {
        Some(Question::Call(Call::Retire { policy })) => Ok(policy),
        _ => Err(Refusal::NoLine(
            "would-retire [keep=K] [bytes=B] [before=T]: each a number, T in seconds since 1970",
        )),
    }
}

// The line of `retire` with these words.
fn retire_line(alloc: Global, words: &[&str]) -> Result<Vec<u8>, AllocError>
    ensures { IfOk result (λ line. line.items ≡ joined (codes "retire" ∷ map (λ word. word.now) words.now)) }
{
    let mut line = Vec::new(alloc);
    line.push("retire")?;
    for word in words {
        line.push(*word)?;
    }
    line_of(alloc, &line)
}

/// Prints which cases `retire` would drop, as it would print it, from a look at the archive. Nothing is changed.
///
/// # Errors
///
/// The refusals of `take_look` of `archive_files` and of an opening. `OutOfMemory`: nothing is printed. `WriteFailed` if the reply could
/// not be written.
pub fn would_retire<R: AllocGlobal + Files<File = File>, O: Output>(
    rt: &R,
    place: ArchivePath<'_>,
    policy: &Policy,
    output: &mut O,
) -> Result<(), Failure> {
    let looked = take_look(rt, place)?;
    let alloc = rt.alloc();
    let disk = looked.unlocked(Vec::new(alloc));
    foresee(alloc, disk, policy, output)
}

// Opens the archive on a disk, and prints the decisions of the rule about its cases.
fn foresee<D: Disk + Drop, O: Output>(
    alloc: Global,
    disk: D,
    policy: &Policy,
    output: &mut O,
) -> Result<(), Failure>
    ensures { Foresees D.Disk policy.now (O.taken output.old) (O.taken output.new) (O.failures output.old) (O.failures output.new) disk result }
{
    match Archive::open(alloc, disk, Settings { limit: 0 }) {
        Ok(archive) => foresee_in(alloc, &archive, policy, output),
        Err((fault, _)) => Err(Failure::Refused(Refusal::Open(fault))),
    }
}

// Prints the decisions of the rule about an archive's cases.
fn foresee_in<D: Disk, O: Output>(
    alloc: Global,
    archive: &Archive<D>,
    policy: &Policy,
    output: &mut O,
) -> Result<(), Failure>
    requires runs { archive.now.stopped ≡ false }
    ensures { ForeseenIn (state_of archive.now).cases policy.now (O.taken output.old) (O.taken output.new) (O.failures output.old) (O.failures output.new) result }
{
    let cases = match archive.cases() {
        Ok(cases) => cases,
        Err(fault) => return Err(Failure::Refused(Refusal::Call(fault))),
    };
    match decided(alloc, cases, policy) {
        Ok(Some(decision)) => print_decision(decision, output),
        Ok(None) => Err(Failure::Refused(Refusal::Disk)),
        Err(_) => Err(Failure::Refused(Refusal::OutOfMemory)),
    }
}

// Prints a decision, as `retire` does.
fn print_decision<O: Output>(decision: Decision, output: &mut O) -> Result<(), Failure>
    ensures { (sent : Result (Unit {0}) StreamFault) × ForeseenTold decision (O.taken output.old) (O.taken output.new) (O.failures output.old) (O.failures output.new) sent × (result ≡ sent_told sent) }
{
    let mut reply = Reply::new(output);
    print_retired(&mut reply, Ok(decision));
    sent_told(reply.finish())
}

pub(crate) fn sent_told(sent: Result<(), StreamFault>) -> Result<(), Failure>
    ensures { result ≡ sent_told sent }
{
    match sent {
        Ok(()) => Ok(()),
        Err(_) => Err(Failure::Faulted(SessionFault::WriteFailed)),
    }
}

// The decisions of the rule about cases, if their numbers rise: an opening sees to it that they do.
fn decided(alloc: Global, cases: &[Entry], policy: &Policy) -> Result<Option<Decision>, AllocError>
    ensures { IfOk result (λ o. IfSome o (λ d. IsDecision policy.now (map brief_of_entry cases.now) d.dropped.items d.unmet)) }
{
    let briefs = briefs_of(alloc, cases)?;
    if !are_rising(&briefs) {
        return Ok(None);
    }
    Ok(Some(decide(alloc, &briefs, policy)?))
}

// The facts of the cases that the rule uses.
fn briefs_of(alloc: Global, cases: &[Entry]) -> Result<Vec<Brief>, AllocError>
    ensures { IfOk result (λ briefs. briefs.items ≡ map brief_of_entry cases.now) }
{
    let mut briefs = Vec::with_capacity(alloc, cases.len())?;
    for entry in cases {
        briefs.push(Brief {
            seq: entry.seq,
            time: entry.time,
            length: entry.length,
            pinned: entry.pinned,
        })?;
    }
    Ok(briefs)
}

// Whether each number is above the one before it.
fn are_rising(briefs: &[Brief]) -> bool
    ensures { result ≡ true → IsStrictlyIncreasing (map seq_of briefs.now) }
{
    for i in 1..briefs.len() {
        if briefs[i - 1].seq >= briefs[i].seq {
            return false;
        }
    }
    true
}
