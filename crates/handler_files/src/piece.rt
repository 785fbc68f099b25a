// The bytes that were read and have not gone to the file yet.
ghost use Rattle.std.specs.Prelude.{◌<◌, ◌≤◌, ◌≡◌, length, take, IfOk, OnErr};
ghost use Rattle.std.specs.Io.KnownBytes.{Consumes, IsAtEnd, Keeps};

use std::alloc::{AllocError, Global};
use std::io;
use std::io::Read;
use std::marker::Model;

// How many bytes are asked for at a time.
const AHEAD: usize = 131_072;

/// The bytes that were read of a stream and have not gone on yet. Contracts see them as a list.
#[derive(Drop)]
pub struct Piece {
    bytes: Vec<u8>,
    start: usize,
    end: usize,
}

impl Model for Piece {
    ghost use Rattle.std.specs.Prelude.{◌≡◌, ◌≤◌, ◌-◌, ℕ, List, drop, take, length};

    ghost Value = { List ℕ };

    ghost view = { λ p. take (p.end - p.start) (drop p.start p.bytes.items) };

    ghost invariant = { λ p. (p.start ≤ p.end) × (p.end ≤ length p.bytes.items) × (length p.bytes.items ≡ 131072) };
}

impl Piece {
    ghost use Rattle.std.specs.Prelude.{[], drop};

    /// A piece with no bytes.
    pub fn new(alloc: Global) -> Result<Piece, AllocError>
        ensures { IfOk result (λ piece. piece ≡ []) }
    {
        let bytes = vec![in alloc; 0u8; AHEAD]?;
        Ok(Piece {
            bytes,
            start: 0,
            end: 0,
        })
    }

    /// Its bytes.
    pub fn bytes(&self) -> &[u8]
        ensures { result.now ≡ self.now }
    {
        &self.bytes[self.start..self.end]
    }

    /// It has no bytes any more.
    pub fn clear(&mut self)
        ensures { self.new ≡ [] }
    {
        self.start = 0;
        self.end = 0;
    }

    /// The first bytes have gone on.
    pub fn skip(&mut self, count: usize)
        requires { count ≤ length self.old }
        ensures { self.new ≡ drop count self.old }
    {
        self.start += count;
    }

    /// Reads the next bytes of a stream, at most so many, in the place of those that it has. Answers how many: 0 is the end of the stream.
    pub fn fill<I: Read>(&mut self, input: &mut I, most: u64) -> io::Result<usize>
        ensures read { IfOk result (λ n. Consumes (I.remaining input.old) (I.remaining input.new) self.new) }
        ensures count { IfOk result (λ n. (length self.new ≡ n) × (n ≤ most)) }
        ensures end { IfOk result (λ n. n ≡ 0 → 0 < most → IsAtEnd (I.remaining input.new)) }
        ensures failed { OnErr result ((self.new ≡ []) × Keeps (I.remaining input.old) (I.remaining input.new)) }
    {
        self.start = 0;
        self.end = 0;
        match read_front(&mut self.bytes, input, most) {
            Ok(count) => {
                self.end = count;
                Ok(count)
            }
            Err(error) => Err(error),
        }
    }
}

// Reads the next bytes of a stream, at most so many, to the front of a buffer. Answers how many.
fn read_front<I: Read>(buffer: &mut [u8], input: &mut I, most: u64) -> io::Result<usize>
    ensures read { IfOk result (λ n. Consumes (I.remaining input.old) (I.remaining input.new) (take n buffer.new)) }
    ensures count { IfOk result (λ n. (n ≤ length buffer.new) × (n ≤ most)) }
    ensures end { IfOk result (λ n. n ≡ 0 → 0 < most → 0 < length buffer.old → IsAtEnd (I.remaining input.new)) }
    ensures failed { OnErr result (Keeps (I.remaining input.old) (I.remaining input.new)) }
{
    if most < buffer.len() as u64 {
        return input.read(buffer.split_at_mut(most as usize).0);
    }
    input.read(buffer)
}
