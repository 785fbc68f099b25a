// The eight slots for streams.
ghost use Rattle.std.specs.Prelude.{◌≡◌, ◌<◌, ◌≤◌, ◌^◌, ◌≢◌, false, ◌↔◌, None, Some, IfOk, IsTrue, IsSome, replicate, length, map, drop, option_map, option_copied, slice_set};
ghost use Rattle.std.specs.List.{All};
ghost use Rattle.intake.specs.declared.slots.Slot.{Slot};
ghost use Rattle.std.specs.Borrow.{sem};
ghost use Rattle.intake.specs.Slots.{stream_at, closed};
ghost use Rattle.intake.specs.Room.{IsFreeFrom};
ghost use Rattle.intake.specs.StreamView.{parts_of, parts_in, taken_parts};
ghost use Rattle.intake.specs.Parts.{StreamParts};
ghost use Rattle.intake.specs.Needs.{longest_of};

use crate::ArchiveFault;
use crate::buffer::Buffer;
use crate::stream::Stream;
use std::alloc::{AllocError, Global};
use std::marker::Model;
use std::mem;

/// How many slots there are.
pub(crate) const SLOTS: usize = 8;

/// A slot: the stream in it, if one is open, and the 4,096 bytes
/// of the block that it fills now; any bytes if no stream is open.
#[derive(Drop)]
pub(crate) struct Slot {
    pub(crate) stream: Option<Stream>,
    pub(crate) block: Buffer,
}

/// The slots for streams. Contracts see the stream in each.
#[derive(Drop)]
pub(crate) struct Slots {
    slots: Vec<Slot>,
}

impl Model for Slots {
    ghost use Rattle.std.specs.Prelude.{◌≡◌, List, Option, map, length};
    ghost use Rattle.intake.specs.Parts.{StreamParts};

    ghost Value = { List (Option StreamParts) };

    ghost use Rattle.intake.specs.StreamView.{parts_in};

    ghost view = { λ s. map parts_in s.slots.items };

    ghost invariant = { λ s. length s.slots.items ≡ 8 };
}

impl Slots {
    ghost use Rattle.intake.specs.Lending.{LendsSlot};
    ghost use Rattle.intake.specs.Room.{SlotReply, HasBlock, room_in};
    ghost use Rattle.intake.specs.Parts.{StreamParts};
    ghost use Rattle.intake.specs.Needs.{longest_of};

    /// Eight slots with nothing in them.
    pub(crate) fn new(alloc: Global) -> Result<Slots, AllocError>
        ensures { IfOk result (λ s. s ≡ replicate 8 None) }
    {
        let mut slots = Vec::with_capacity(alloc, SLOTS)?;
        while slots.len() < SLOTS {
            slots.push(Slot {
                stream: None,
                block: Buffer::empty(alloc),
            })?;
        }
        Ok(Slots { slots })
    }

    /// Whether a stream is open in a slot.
    pub(crate) fn is_open(&self, slot: u8) -> bool
        requires { slot < 8 }
        ensures { IsTrue result ↔ IsSome (stream_at self.now slot) }
    {
        let slot = &self.slots[usize::from(slot)];
        slot.stream.is_some()
    }

    /// The bytes of the record of the case that the stream in a slot becomes, if there is one and its image lies in one run of
    /// blocks more.
    pub(crate) fn longest_record(&self, slot: u8) -> Option<u64>
        requires { (s : StreamParts) → stream_at self.now slot ≡ Some s → length s.facts.blocks ≤ 2 ^ 52 }
        ensures { result ≡ option_map longest_of (stream_at self.now slot) }
    {
        if usize::from(slot) >= self.slots.len() {
            return None;
        }
        longest_in(&self.slots[usize::from(slot)])
    }

    /// Takes the stream out of a slot, with its block, if there is one.
    pub(crate) fn take(&mut self, alloc: Global, slot: u8) -> Option<(Stream, Buffer)>
        ensures stream { option_map taken_parts result ≡ stream_at self.old slot }
        ensures slots { self.new ≡ slice_set self.old slot None }
    {
        if usize::from(slot) >= self.slots.len() {
            return None;
        }
        let slot = &mut self.slots[usize::from(slot)];
        take_from(alloc, slot)
    }

    /// Puts a stream with its block into a slot.
    pub(crate) fn put(&mut self, slot: u8, stream: Stream, block: Buffer)
        requires { slot < 8 }
        ensures { self.new ≡ slice_set self.old slot (Some (parts_of block stream)) }
    {
        self.slots[usize::from(slot)] = Slot {
            stream: Some(stream),
            block,
        };
    }

    /// Takes all streams out.
    pub(crate) fn close_all(&mut self)
        ensures { self.new ≡ closed self.old }
    {
        close_each(&mut self.slots);
    }

    /// Gives the caller the free part of the block of the stream in a slot; nothing if the call is refused.
    pub(crate) fn lend(&mut self, stopped: bool, slot: u8) -> (Result<(), ArchiveFault>, &mut [u8])
        requires { stopped ≡ false → HasBlock (stream_at self.old slot) }
        ensures* writes_back { sem 𝓛 (LendsSlot self.entry slot result) }
        ensures reply { SlotReply stopped self.old slot result.0 }
        ensures lent { result.1.now ≡ room_in self.old slot result.0 }
    {
        let there = slot < 8;
        let slot = &mut self.slots[usize::from(slot % 8)];
        let (reply, from) = free_from(stopped, there, slot);
        slot.lend(reply, from)
    }
}

impl Slot {
    ghost use Rattle.intake.specs.Lending.{LendsBlock};

    // Gives the caller the bytes of the block from a place on, with a reply.
    fn lend(
        &mut self,
        reply: Result<(), ArchiveFault>,
        from: usize,
    ) -> (Result<(), ArchiveFault>, &mut [u8])
        requires { from ≤ length self.old.block }
        ensures* writes_back { sem 𝓛 (LendsBlock self.entry from result) }
        ensures reply { result.0 ≡ reply }
        ensures lent { result.1.now ≡ drop from self.old.block }
    {
        self.block.lend(reply, from)
    }
}

// The place in a slot's block where the free part starts: the end if nothing is lent.
fn free_from(stopped: bool, there: bool, slot: &Slot) -> (Result<(), ArchiveFault>, usize)
    ensures { IsFreeFrom stopped there (parts_in slot.now) (length slot.now.block) result.0 result.1 }
{
    let end = slot.block.len();
    if stopped {
        return (Err(ArchiveFault::Stopped), end);
    }
    match &slot.stream {
        Some(stream) if there => (Ok(()), (stream.length % 4096) as usize),
        _ => (Err(ArchiveFault::NoStream), end),
    }
}

// The bytes of the record of the case that the stream in a slot becomes, if there is one and its image lies in one run of blocks more.
fn longest_in(slot: &Slot) -> Option<u64>
    requires { (s : StreamParts) → parts_in slot.now ≡ Some s → length s.facts.blocks ≤ 2 ^ 52 }
    ensures { result ≡ option_map longest_of (parts_in slot.now) }
{
    match &slot.stream {
        Some(stream) => Some(stream.longest_record()),
        None => None,
    }
}

// Takes the stream out of a slot.
fn take_from(alloc: Global, slot: &mut Slot) -> Option<(Stream, Buffer)>
    ensures stream { option_map taken_parts result ≡ parts_in slot.old }
    ensures slot { parts_in slot.new ≡ None }
{
    let stream = slot.stream.take()?;
    let block = mem::replace(&mut slot.block, Buffer::empty(alloc));
    Some((stream, block))
}

// Takes the streams out of all slots.
fn close_each(slots: &mut [Slot])
    ensures { All (λ (s : Slot). parts_in s ≡ None) slots.new }
{
    for place in 0..slots.len() {
        slots[place].stream = None;
    }
}
