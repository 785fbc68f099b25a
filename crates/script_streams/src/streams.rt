//! The source of a script, and the destination of replies.
ghost use Rattle.std.specs.Prelude.{◌≡◌, ℕ, ◌<◌, ◌≤◌, List, Option, None, length, IfOk, OnOk, OnErr, is_some, nat_lt};
ghost use Rattle.std.specs.Io.KnownBytes.{ReadConsumes, WriteAppends};
ghost use Rattle.diagnostics.specs.Counts.{HasRisen};

use diagnostics::after_failure;
use std::io::{ErrorKind, Read, Write};
use thiserror::Error;

/// A stream's call failed, for whatever cause.
#[derive(Clone, Copy, PartialEq, Eq, Debug, Error)]
#[error("a stream failed")]
pub struct StreamFault;

/// Gives a script's bytes, piece by piece.
pub trait Input {
    // The bytes that are still to come, if they are known.
    ghost remaining: { Self → Option (List ℕ) };

    // How many calls have failed.
    ghost failures: { Self → ℕ };

    /// Writes the next bytes to the front of `into`, and answers how many. 0 is the end of the input.
    fn read(&mut self, into: &mut [u8]) -> Result<usize, StreamFault>
        requires { 0 < length into.old }
        ensures count { IfOk result (λ n. n ≤ length into.new) }
        ensures bytes { ReadConsumes (remaining self.old) (remaining self.new) result into.new }
        ensures ok { OnOk result (failures self.new ≡ failures self.old) }
        ensures err { OnErr result (HasRisen (failures self.old) (failures self.new)) };
}

/// Takes the text of replies.
pub trait Output {
    // The bytes that it has taken, if they are known.
    ghost taken: { Self → Option (List ℕ) };

    // How many calls have failed.
    ghost failures: { Self → ℕ };

    /// Takes bytes from the front of `from`, at least one, and answers how many.
    fn write(&mut self, from: &[u8]) -> Result<usize, StreamFault>
        requires { 0 < length from.now }
        ensures count { IfOk result (λ n. (0 < n) × (n ≤ length from.now)) }
        ensures bytes { WriteAppends (taken self.old) (taken self.new) result from.now }
        ensures ok { OnOk result (failures self.new ≡ failures self.old) }
        ensures err { OnErr result (HasRisen (failures self.old) (failures self.new)) };
}

/// The bytes of one of std's readers. Each `Err`, of any kind, is a failure.
#[derive(Drop)]
pub struct ReadInput<R> {
    reader: R,
    failures: u64,
}

impl<R: Read> ReadInput<R> {
    /// The input of a reader, from its present place on. No failure is counted yet.
    pub fn new(reader: R) -> Self
        ensures remaining { ⟦<ReadInput<R> as Input>⟧.remaining result ≡ R.remaining reader }
        ensures failures { ⟦<ReadInput<R> as Input>⟧.failures result ≡ 0 }
    {
        ReadInput {
            reader,
            failures: 0,
        }
    }
}

impl<R: Read> Input for ReadInput<R> {
    ghost remaining = { λ s. R.remaining s.reader };

    ghost failures = { λ s. s.failures };

    fn read(&mut self, into: &mut [u8]) -> Result<usize, StreamFault> {
        match self.reader.read(into) {
            Ok(count) => Ok(count),
            Err(_) => {
                self.failures = after_failure(self.failures);
                Err(StreamFault)
            }
        }
    }
}

/// The bytes that one of std's writers takes. Each `Err`, of any kind, is a failure, and so is a write that takes no byte.
#[derive(Drop)]
pub struct WriteOutput<W> {
    writer: W,
    failures: u64,
    // Of the last write that failed.
    fault: Option<ErrorKind>,
    ghost told: { is_some fault ≡ nat_lt 0 failures },
}

impl<W: Write> WriteOutput<W> {
    /// The output to a writer, after the bytes that it holds already. No failure is counted yet.
    pub fn new(writer: W) -> Self
        ensures taken { ⟦<WriteOutput<W> as Output>⟧.taken result ≡ W.contents writer }
        ensures failures { ⟦<WriteOutput<W> as Output>⟧.failures result ≡ 0 }
    {
        WriteOutput {
            writer,
            failures: 0,
            fault: None,
        }
    }

    /// Why the last write failed that did, if one has: there is a reason exactly if a failure is counted.
    pub fn fault(&self) -> Option<ErrorKind>
        ensures { is_some result ≡ nat_lt 0 (⟦<WriteOutput<W> as Output>⟧.failures self.now) }
    {
        self.fault
    }

    /// The writer, with all that was written.
    pub fn into_inner(self) -> W
        ensures { W.contents result ≡ ⟦<WriteOutput<W> as Output>⟧.taken self }
    {
        let WriteOutput {
            writer,
            failures: _,
            fault: _,
        } = self;
        writer
    }
}

impl<W: Write> Output for WriteOutput<W> {
    ghost taken = { λ s. W.contents s.writer };

    ghost failures = { λ s. s.failures };

    fn write(&mut self, from: &[u8]) -> Result<usize, StreamFault> {
        let fault = match self.writer.write(from) {
            Ok(0) => ErrorKind::WriteZero,
            Ok(count) => return Ok(count),
            Err(error) => error.kind(),
        };
        self.fault = Some(fault);
        self.failures = after_failure(self.failures);
        Err(StreamFault)
    }
}
