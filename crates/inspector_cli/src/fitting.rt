// Cases that go, one by one, so that a stream finds room.
ghost use Rattle.std.specs.Prelude.{◌≡◌, ◌<◌, ℕ, List, [], Ok, None, IfSome, true, false, map, option_map};
ghost use Rattle.std.specs.List.{find, filter};
ghost use Rattle.intake.specs.Parts.{Parts, state_of};
ghost use Rattle.journal_layout.specs.Case.{case_of};
ghost use Rattle.script_streams.specs.Replies.{PrintsText, printing};
ghost use Rattle.archive_replies.specs.Texts.{dropped_line};
ghost use Rattle.intake.specs.State.{blocks_in};
ghost use Rattle.inspector_cli.specs.Fitting.{Going, TakesWhile, HasNoBlock, FindsNoRoom, FindsRoom, NoneMayFree, NoneMayGo, DropsOne, DropsAll, IsNext, frees, goes, goes_first, may_go, next_core};
ghost use Rattle.inspector_cli.specs.Storing.{GoesNext, MakesRoom};

use crate::session::Order;
use crate::store::TakeStop;
use disk_model::Disk;
use fair_share::fairest;
use intake::Archive;
use journal_layout::{Entry, Kind};
use script_streams::{Output, Reply};
use std::alloc::Global;

// The need of a stream for which there may be no room.
#[derive(Clone, Copy)]
pub(crate) enum Need {
    // A data block.
    Block,
    // The record of its case.
    Record,
}

// Deletes the cases that go next, and prints them, until there is room for this or no case may go. A case that can't be deleted
// refuses the stream in slot 0.
pub(crate) fn make_room<O: Output, D: Disk>(
    order: Order,
    need: Need,
    reply: &mut Reply<'_, O>,
    archive: &mut Archive<D>,
) -> Result<(), TakeStop>
    ensures room { (begun : Parts D) (so_far : List ℕ) (gone : List (Going D))
        → TakesWhile D.Disk order begun so_far gone (Ok tt) archive.old
        → MakesRoom D.Disk order begun so_far gone (printing O.Output reply.old reply.new) archive.new result }
    ensures served { DropsAll order need (state_of archive.old) result (state_of archive.new) }
{
    loop {
        let is_gone = drop_if_full(order, need, reply, archive)?;
        if !is_gone {
            return Ok(());
        }
    }
}

// Deletes the case that goes next, and prints it, if there is no room for this. Returns whether one went.
fn drop_if_full<O: Output, D: Disk>(
    order: Order,
    need: Need,
    reply: &mut Reply<'_, O>,
    archive: &mut Archive<D>,
) -> Result<bool, TakeStop>
    ensures goes { (begun : Parts D) (so_far : List ℕ) (gone : List (Going D))
        → TakesWhile D.Disk order begun so_far gone (Ok tt) archive.old
        → GoesNext D.Disk order begun so_far gone (printing O.Output reply.old reply.new) archive.new result }
    ensures served { DropsOne order need (state_of archive.old) result (state_of archive.new) }
{
    if !lacks_room(need, archive) {
        return Ok(false);
    }
    let Some(seq) = next_number(order, archive) else {
        return Ok(false);
    };
    match archive.delete(seq) {
        Ok(()) => {
            print_gone(reply, seq);
            Ok(true)
        }
        Err(fault) => Err(TakeStop::Refused(fault)),
    }
}

// Whether there is no room for this.
fn lacks_room<D: Disk>(need: Need, archive: &Archive<D>) -> bool
    ensures lacks { result ≡ true → FindsNoRoom (state_of archive.now) }
    ensures finds { result ≡ false → FindsRoom need (state_of archive.now) }
{
    match need {
        Need::Block => lacks_block(archive),
        Need::Record => archive.lacks_record_room(0),
    }
}

// Whether no data block is free.
pub(crate) fn lacks_block<D: Disk>(archive: &Archive<D>) -> bool
    ensures lacks { result ≡ true → HasNoBlock (state_of archive.now) }
    ensures finds { result ≡ false → (state_of archive.now).stopped ≡ false
        → blocks_in (state_of archive.now) < (state_of archive.now).shape.data_blocks }
{
    match archive.free_blocks() {
        Ok(space) => space.free == 0,
        Err(_) => false,
    }
}

// The number of the case that goes next, if one may.
fn next_number<D: Disk>(order: Order, archive: &Archive<D>) -> Option<u32>
    ensures next { IfSome result (λ seq. IsNext order (state_of archive.now).cases seq) }
    ensures none { result ≡ None → (state_of archive.now).stopped ≡ false → NoneMayGo (state_of archive.now) }
{
    match archive.cases() {
        Ok(cases) => next_of(archive.allocator(), order, cases),
        Err(_) => None,
    }
}

// The number of the case that goes next, of cases in the order of their numbers.
fn next_of(alloc: Global, order: Order, cases: &[Entry]) -> Option<u32>
    ensures next { IfSome result (λ seq. IsNext order (map case_of cases.now) seq) }
    ensures none { result ≡ None → filter may_go (map case_of cases.now) ≡ [] }
{
    match next_core(alloc, order, cases) {
        Some(core) => Some(core.seq),
        None => match first_loose(cases) {
            Some(case) => Some(case.seq),
            None => None,
        },
    }
}

// Whether a case with data blocks may go; true also if that is not known.
pub(crate) fn may_free<D: Disk>(archive: &Archive<D>) -> bool
    ensures { result ≡ false → NoneMayFree (state_of archive.now) }
{
    match archive.cases() {
        Ok(cases) => first_freeing(cases).is_some(),
        Err(_) => true,
    }
}

// The first case that is not pinned and has data blocks.
fn first_freeing(cases: &[Entry]) -> Option<&Entry>
    ensures { option_map (λ (e : _). e.now) result ≡ find frees cases.now }
{
    cases.iter().find(|case| would_free(case))
}

// Whether this is a case that is not pinned and has data blocks.
fn would_free(case: &Entry) -> bool
    ensures { result ≡ frees case.now }
{
    !case.pinned && case.length > 0
}

// The core that goes next, if one is not pinned.
fn next_core(alloc: Global, order: Order, cases: &[Entry]) -> Option<&Entry>
    ensures { option_map (λ (e : _). case_of e.now) result ≡ next_core order (map case_of cases.now) }
{
    match order {
        Order::Oldest => first_core(cases),
        Order::Fair => fairest(alloc, cases),
    }
}

// The first core that is not pinned.
fn first_core(cases: &[Entry]) -> Option<&Entry>
    ensures { option_map (λ (e : _). e.now) result ≡ find goes_first cases.now }
{
    cases.iter().find(|case| is_loose_core(case))
}

// The first case that is not pinned.
fn first_loose(cases: &[Entry]) -> Option<&Entry>
    ensures { option_map (λ (e : _). e.now) result ≡ find goes cases.now }
{
    cases.iter().find(|case| !case.pinned)
}

// Whether this is a core that is not pinned.
fn is_loose_core(case: &Entry) -> bool
    ensures { result ≡ goes_first case.now }
{
    !case.pinned && case.kind == Kind::Core
}

// Prints a case that went.
pub(crate) fn print_gone<O: Output>(reply: &mut Reply<'_, O>, seq: u32)
    ensures { PrintsText (printing O.Output reply.old reply.new) (dropped_line seq) }
{
    reply.print(b"dropped ");
    reply.print_decimal(u128::from(seq));
    reply.print(b"\n");
}
