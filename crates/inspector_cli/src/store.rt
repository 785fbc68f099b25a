// One stream, stored from its own input, with cases retired before it, and the label and the pin of its case.
ghost use Rattle.std.specs.Prelude.{◌≡◌, ◌<◌, ◌≤◌, ℕ, true, List, [], Ok, IfOk};
ghost use Rattle.intake.specs.Durable.{Durable};
ghost use Rattle.intake.specs.Parts.{Parts, state_of};
ghost use Rattle.stream_names.specs.Commands.{stream_found};
ghost use Rattle.inspector_cli.specs.Fitting.{Going, TakesWhile, Advances, CutsWell, IsServed, IsUncut, ServesOn, FillsServed};
ghost use Rattle.inspector_cli.specs.Bursts.{admitted};
ghost use Rattle.inspector_cli.specs.Reply.{Begins, Takes};
ghost use Rattle.script_streams.specs.Replies.{PrintsReply, printing};
ghost use Rattle.inspector_cli.specs.Session.{streams_of};
ghost use Rattle.inspector_cli.specs.Stated.{HashesOn};
ghost use Rattle.inspector_cli.specs.Storing.{StoreEnds, Stores, StoresStream, FillsAndEnds, PinsCase, LabelsCase, label_asked, options_asked, FillsAll, TakesAll, TakesNext, TakesMore, IsSlotQuiet, difference_reason};

use crate::answers::{answer_end, answer_label, answer_pin};
use crate::begin::answer_begin;
use crate::burst::admitted;
use crate::fitting::{Need, lacks_block, make_room};
use crate::front::{answer_front, take_file};
use crate::retiring::retire_first;
use crate::session::{Order, SessionFault, StoreOptions, StoreOutcome};
use crate::stated::{Difference, Stated, hash_on};
use archive_replies::reason;
use arrayvec::ArrayVec;
use disk_model::Disk;
use intake::{Archive, ArchiveFault, calls_lead_from_mark_to_mark, found_after_a_stop};
use retention::Policy;
use script_streams::{Input, Output, Reply, print_no};
use sha2::Sha256;
use stream_names::NewStream;

// The most bytes that one read takes: those of a block.
pub(crate) const MOST_BYTES: usize = 4096;

// How many reads a file may take.
pub(crate) const MOST_READS: u64 = 1 << 40;

/// Why a file's bytes were not all taken.
#[derive(Clone, Copy)]
pub(crate) enum TakeStop {
    /// It could not be read, or did not end.
    File,
    /// The archive refused them.
    Refused(ArchiveFault),
    /// So many were taken, and are kept. More follow.
    Cut(u64),
    /// It is not the one that was stated.
    Differs(Difference),
}

/// Stores one stream, with these options. A policy, if one is given, is carried out before it.
///
/// - Room is made as by the line `retire` of a session, if the stream can begin then: `found` is a stream, and no case that
///   stays has its name. Otherwise nothing is retired, and there is no text about it. The stream is stored whatever the reply was.
/// - If the options have a burst, and the stream is a core that would be one too many of its program, no stream is found, with the
///   reason `Burst`: all that follows is as for a `found` with that reason.
/// - The stream begins in slot 0, or is refused for the reason that `found` has. If it begins, it takes all bytes of `file`
///   and becomes a case. The reply is that of the line `begin`, and then that of the first step that was refused, or else
///   that of the line `end 0`. A `file` that cannot be read, or that has not ended after 2^40 reads, is a step that is
///   refused with the reply `no File`.
/// - If cases may go so that it fits, and no data block is free when bytes come, or the journal has no room for the case's record
///   at the end, the case that goes next is deleted, as by the line `delete` of a session, and `dropped N` is printed after the reply to
///   `begin`; and so on, until there is room or all cases that are left are pinned. If one can't be deleted, that is the step that
///   was refused. The record is taken to lie in one run of blocks more than the image has so far.
/// - If so many bytes may be kept at most of a `file` that has more, it is cut: when that many are taken, or whole blocks are, and no
///   data block is free, after cases went, if they may. The bytes that were taken become the case. If it is stored, `cut KEPT` is printed
///   before the reply to the end.
/// - If the length of `file` is stated, a case is stored only if its image has it, or `file` was cut before. A `file` that ends earlier is a
/// step that is refused with the reply `no Short`. One that goes on is one with `no TooLong`: its first byte that is too many is read, and
///   none after it.
/// - If the SHA-256 of `file` is stated (FIPS 180-4), a case is stored only if its image has it, or `file` was cut before. A `file` that ends
///   with another one, and with the length that was stated, if that was done, is a step that is refused with the reply `no Differs`.
/// - Once the case is stored, it gets its label as by the line `label` of a session, and then it is pinned as by the line `pin`.
///   A case whose label or pin is refused stays.
///
/// No stream is open in slot 0 then.
///
/// # Errors
///
/// `WriteFailed` if the output failed: it has a front of the replies. All is done that would have been done.
pub fn store_stream<I: Input, O: Output, D: Disk>(
    policy: Option<Policy>,
    found: Result<NewStream, &'static [u8]>,
    options: &StoreOptions,
    file: &mut I,
    output: &mut O,
    archive: &mut Archive<D>,
) -> Result<StoreOutcome, SessionFault>
    ensures ends { (doubts : List Durable) → StoreEnds D.Disk (streams_of I.Input O.Output file.old file.new output.old output.new)
        (record { archive = archive.old; in_doubt = doubts }) policy
        (admitted options.now.burst (state_of archive.old).stopped (state_of archive.old).cases (stream_found found.entry)) (options_asked options.now) archive.new result }
    ensures quiet { IsSlotQuiet (state_of archive.new) }
{
    calls_lead_from_mark_to_mark::<D>();
    found_after_a_stop::<D>();
    let found = admitted(&options.burst, found, archive);
    let mut reply = Reply::new(output);
    let outcome = answer_all(policy, found, options, file, &mut reply, archive);
    let _ = archive.abandon(0);
    let Ok(()) = reply.finish() else {
        return Err(SessionFault::WriteFailed);
    };
    Ok(outcome)
}

// Retires by the policy, stores the stream with its file, and then gives the case its label and its pin.
fn answer_all<I: Input, O: Output, D: Disk>(
    policy: Option<Policy>,
    found: Result<NewStream, &'static [u8]>,
    options: &StoreOptions,
    file: &mut I,
    reply: &mut Reply<'_, O>,
    archive: &mut Archive<D>,
) -> StoreOutcome
    ensures { PrintsReply (printing O.Output reply.old reply.new) (λ text. Stores D.Disk (I.remaining file.old) (I.remaining file.new) (I.failures file.old) (I.failures file.new)
        archive.old policy (stream_found found.entry) (options_asked options.now) text archive.new result) }
{
    let retired_first = retire_first(policy, &found, reply, archive);
    let stored = answer_store(
        options.fit,
        options.order,
        options.cut,
        Stated {
            length: options.length,
            digest: options.digest,
        },
        found,
        file,
        reply,
        archive,
    );
    let labelled = label_case(stored, &options.label, reply, archive);
    let pinned = pin_case(stored, options.pin, reply, archive);
    StoreOutcome {
        retired_first,
        stored,
        labelled,
        pinned,
    }
}

// Pins the case that is stored, if it is to be. Returns whether that was answered other than `no REASON`.
fn pin_case<O: Output, D: Disk>(
    stored: Option<u32>,
    pin: bool,
    reply: &mut Reply<'_, O>,
    archive: &mut Archive<D>,
) -> bool
    ensures { PrintsReply (printing O.Output reply.old reply.new) (λ text. PinsCase D.Disk archive.old stored pin text archive.new result) }
{
    let Some(seq) = stored else {
        return true;
    };
    if !pin {
        return true;
    }
    answer_pin(seq, true, reply, archive)
}

// Gives the case that is stored its label, if there are both. Returns whether that was answered other than `no REASON`.
fn label_case<O: Output, D: Disk>(
    stored: Option<u32>,
    label: &Option<ArrayVec<u8, 64>>,
    reply: &mut Reply<'_, O>,
    archive: &mut Archive<D>,
) -> bool
    ensures { PrintsReply (printing O.Output reply.old reply.new) (λ text. LabelsCase D.Disk archive.old stored (label_asked label.now) text archive.new result) }
{
    let Some(seq) = stored else {
        return true;
    };
    match label {
        Some(label) => answer_label(seq, label, reply, archive),
        None => true,
    }
}

// Begins this stream, or is refused for this reason, and then takes its file. Returns the number of the case, if it is stored.
fn answer_store<I: Input, O: Output, D: Disk>(
    fit: bool,
    order: Order,
    cut: Option<u64>,
    stated: Stated,
    found: Result<NewStream, &'static [u8]>,
    file: &mut I,
    reply: &mut Reply<'_, O>,
    archive: &mut Archive<D>,
) -> Option<u32>
    ensures { PrintsReply (printing O.Output reply.old reply.new) (λ text. StoresStream D.Disk order fit cut stated (I.remaining file.old) (I.remaining file.new) (I.failures file.old) (I.failures file.new)
        archive.old (stream_found found.entry) text archive.new result) }
{
    let is_begun = answer_first(found, reply, archive);
    if !is_begun {
        return None;
    }
    answer_file(fit, order, cut, stated, file, reply, archive)
}

// Begins this stream, or is refused for this reason. Returns whether it has begun: then it has no bytes yet.
fn answer_first<O: Output, D: Disk>(
    found: Result<NewStream, &'static [u8]>,
    reply: &mut Reply<'_, O>,
    archive: &mut Archive<D>,
) -> bool
    ensures first { PrintsReply (printing O.Output reply.old reply.new) (λ text. Begins D.Disk archive.old 0 (stream_found found.entry) text archive.new result) }
    ensures begun { result ≡ true → Takes D.Disk archive.new 0 [] (Ok tt) archive.new }
    ensures served { result ≡ true → IsServed (state_of archive.new) }
{
    answer_begin(0, found, reply, archive)
}

// Takes a file into the stream in slot 0, and makes it a case. Returns its number, if it is stored.
fn answer_file<I: Input, O: Output, D: Disk>(
    fit: bool,
    order: Order,
    cut: Option<u64>,
    stated: Stated,
    file: &mut I,
    reply: &mut Reply<'_, O>,
    archive: &mut Archive<D>,
) -> Option<u32>
    requires { Takes D.Disk archive.old 0 [] (Ok tt) archive.old }
    ensures { PrintsReply (printing O.Output reply.old reply.new) (λ text. FillsAndEnds D.Disk order fit cut stated (I.remaining file.old) (I.remaining file.new) (I.failures file.old) (I.failures file.new)
        archive.old text archive.new result) }
{
    match fill_stream(fit, order, cut, stated, file, reply, archive) {
        Ok(()) => answer_end(0, reply, archive),
        Err(TakeStop::Cut(kept)) => answer_front(kept, reply, archive),
        Err(TakeStop::File) => {
            print_no(reply, b"File");
            None
        }
        Err(TakeStop::Refused(fault)) => {
            print_no(reply, reason(fault));
            None
        }
        Err(TakeStop::Differs(fault)) => {
            print_no(reply, difference_reason(fault));
            None
        }
    }
}

// Why a stream is refused that is not the one that was stated.
fn difference_reason(fault: Difference) -> &'static [u8]
    ensures { result.now ≡ difference_reason fault }
{
    match fault {
        Difference::Short => b"Short",
        Difference::Long => b"TooLong",
        Difference::Digest => b"Differs",
    }
}

// Takes all bytes of a file into the stream in slot 0, or those that are kept, and makes room for the record of its case. For both cases go, if
// they may.
fn fill_stream<I: Input, O: Output, D: Disk>(
    fit: bool,
    order: Order,
    cut: Option<u64>,
    stated: Stated,
    file: &mut I,
    reply: &mut Reply<'_, O>,
    archive: &mut Archive<D>,
) -> Result<(), TakeStop>
    requires { Takes D.Disk archive.old 0 [] (Ok tt) archive.old }
    ensures all { FillsAll D.Disk order fit cut stated (I.remaining file.old) (I.remaining file.new) (I.failures file.old) (I.failures file.new)
        archive.old (printing O.Output reply.old reply.new) archive.new result }
    ensures served { fit ≡ true → IsServed (state_of archive.old) → FillsServed order result (state_of archive.new) }
{
    if !fit {
        return take_asked(fit, order, cut, stated, file, reply, archive);
    }
    match take_asked(fit, order, cut, stated, file, reply, archive) {
        Ok(()) => make_room(order, Need::Record, reply, archive),
        Err(TakeStop::Cut(kept)) => {
            make_room(order, Need::Record, reply, archive)?;
            Err(TakeStop::Cut(kept))
        }
        Err(TakeStop::File) => Err(TakeStop::File),
        Err(TakeStop::Refused(fault)) => Err(TakeStop::Refused(fault)),
        Err(TakeStop::Differs(fault)) => Err(TakeStop::Differs(fault)),
    }
}

// Takes all bytes of a file into the stream in slot 0, or those that are kept, if it may be cut. No file is cut before its first byte.
fn take_asked<I: Input, O: Output, D: Disk>(
    fit: bool,
    order: Order,
    cut: Option<u64>,
    stated: Stated,
    file: &mut I,
    reply: &mut Reply<'_, O>,
    archive: &mut Archive<D>,
) -> Result<(), TakeStop>
    requires { Takes D.Disk archive.old 0 [] (Ok tt) archive.old }
    ensures all { TakesAll D.Disk order fit stated (I.remaining file.old) (I.remaining file.new) (I.failures file.old) (I.failures file.new)
        archive.old (printing O.Output reply.old reply.new) archive.new result }
    ensures served { fit ≡ true → IsServed (state_of archive.old) → ServesOn order result (state_of archive.new) }
    ensures well { CutsWell fit cut result (state_of archive.new) }
{
    let Some(most) = cut else {
        return take_file(fit, order, None, stated, file, reply, archive);
    };
    if most == 0 {
        return take_file(fit, order, None, stated, file, reply, archive);
    }
    take_file(fit, order, Some(most), stated, file, reply, archive)
}

// Takes the next bytes of a file into the stream in slot 0, `most` at
// most, for which cases go, if they may. Returns how many there were.
pub(crate) fn take_next<I: Input, O: Output, D: Disk>(
    fit: bool,
    order: Order,
    most: usize,
    hasher: &mut Option<Sha256>,
    file: &mut I,
    reply: &mut Reply<'_, O>,
    archive: &mut Archive<D>,
) -> Result<usize, TakeStop>
    requires { 0 < most }
    ensures next { (begun : Parts D) (so_far : List ℕ) (gone : List (Going D))
        → TakesWhile D.Disk order begun so_far gone (Ok tt) archive.old
        → TakesNext D.Disk order (I.remaining file.old) (I.remaining file.new) (I.failures file.old) (I.failures file.new)
        begun so_far gone fit (HashesOn hasher.old hasher.new) (printing O.Output reply.old reply.new) archive.new result }
    ensures served { fit ≡ true → IsServed (state_of archive.old) → ServesOn order result (state_of archive.new) }
    ensures few { IfOk result (λ n. n ≤ most) }
    ensures uncut { IsUncut result }
{
    if !fit {
        return take_more(most, hasher, file, archive);
    }
    take_fitting(order, most, hasher, file, reply, archive)
}

// The same if cases may go: they do if no data block is free.
fn take_fitting<I: Input, O: Output, D: Disk>(
    order: Order,
    most: usize,
    hasher: &mut Option<Sha256>,
    file: &mut I,
    reply: &mut Reply<'_, O>,
    archive: &mut Archive<D>,
) -> Result<usize, TakeStop>
    requires { 0 < most }
    ensures next { (begun : Parts D) (so_far : List ℕ) (gone : List (Going D))
        → TakesWhile D.Disk order begun so_far gone (Ok tt) archive.old
        → TakesNext D.Disk order (I.remaining file.old) (I.remaining file.new) (I.failures file.old) (I.failures file.new)
        begun so_far gone true (HashesOn hasher.old hasher.new) (printing O.Output reply.old reply.new) archive.new result }
    ensures served { IsServed (state_of archive.old) → ServesOn order result (state_of archive.new) }
    ensures few { IfOk result (λ n. n ≤ most) }
    ensures uncut { IsUncut result }
{
    if !lacks_block(archive) {
        return take_more(most, hasher, file, archive);
    }
    take_one(order, hasher, file, reply, archive)
}

// Takes the next byte of a file into the stream in slot 0, if no data block is free: the block that it needs is not there, so cases go.
fn take_one<I: Input, O: Output, D: Disk>(
    order: Order,
    hasher: &mut Option<Sha256>,
    file: &mut I,
    reply: &mut Reply<'_, O>,
    archive: &mut Archive<D>,
) -> Result<usize, TakeStop>
    ensures next { (begun : Parts D) (so_far : List ℕ) (gone : List (Going D))
        → TakesWhile D.Disk order begun so_far gone (Ok tt) archive.old
        → TakesNext D.Disk order (I.remaining file.old) (I.remaining file.new) (I.failures file.old) (I.failures file.new)
        begun so_far gone true (HashesOn hasher.old hasher.new) (printing O.Output reply.old reply.new) archive.new result }
    ensures served { IsServed (state_of archive.old) → ServesOn order result (state_of archive.new) }
    ensures few { IfOk result (λ n. n ≤ 1) }
    ensures uncut { IsUncut result }
{
    let count = take_more(1, hasher, file, archive)?;
    if count == 0 {
        return Ok(0);
    }
    make_room(order, Need::Block, reply, archive)?;
    Ok(count)
}

// Takes the next bytes of a file into the stream in slot 0, `most` at most, and hashes them. Returns how many there were.
fn take_more<I: Input, D: Disk>(
    most: usize,
    hasher: &mut Option<Sha256>,
    file: &mut I,
    archive: &mut Archive<D>,
) -> Result<usize, TakeStop>
    requires { 0 < most }
    ensures more { (begun : Parts D) (so_far : List ℕ)
        → Takes D.Disk begun 0 so_far (Ok tt) archive.old
        → TakesMore (I.remaining file.old) (I.remaining file.new) (I.failures file.old) (I.failures file.new)
        so_far (HashesOn hasher.old hasher.new) (λ raw v. Takes D.Disk begun 0 raw v archive.new) result }
    ensures advances { Advances most (state_of archive.old) result (state_of archive.new) }
    ensures few { IfOk result (λ n. n ≤ most) }
    ensures uncut { IsUncut result }
{
    let (lent, room) = archive.room(0);
    if let Err(fault) = lent {
        return Err(TakeStop::Refused(fault));
    }
    let size = room.len().min(most);
    let Ok(count) = file.read(&mut room[..size]) else {
        return Err(TakeStop::File);
    };
    if count == 0 {
        return Ok(0);
    }
    hash_on(hasher, &room[..count]);
    if let Err(fault) = archive.advance(0, count) {
        return Err(TakeStop::Refused(fault));
    }
    Ok(count)
}
