//! A script's input, by lines and parts.
ghost use Rattle.std.specs.Prelude.{◌≡◌, ◌≢◌, true, ℕ, ◌+◌, ◌<◌, ◌≤◌, ◌^◌, List, [], ◌++◌, ◌∷◌, length, min, take, Option, OnOk, OnErr, None};

use crate::kept_line::KeptLine;
use crate::reply::Reply;
use crate::streams::{Input, Output};
use memchr::memchr;
use thiserror::Error;

/// Why a script could not be read on.
#[derive(Clone, Copy, PartialEq, Eq, Debug, Error)]
pub enum ReadStop {
    /// The input failed.
    #[error("the input failed")]
    ReadFailed,
    /// 2^40 reads were made, and each gave a byte.
    #[error("too many reads")]
    TooManyReads,
}

/// The end of a line.
#[derive(Clone, Copy, Debug, PartialEq, Eq)]
pub enum LineEnding {
    /// A newline, which is not of the line.
    Newline,
    /// The end of the input, after a byte at least.
    EndOfInput,
    /// The input ended before another line began.
    NothingLeft,
}

/// The bytes of a script's input that were read and not used yet. It has a fixed size.
#[derive(Drop)]
pub struct ScriptBuffer {
    bytes: [u8; 65536],
    start: usize,
    end: usize,
    reads: u64,
    ghost ordered: { start ≤ end },
    ghost within: { end ≤ 65536 },
    ghost counted: { reads ≤ 1099511627776 },
}

// How many reads a script may take.
const MOST_READS: u64 = 1 << 40;

impl ScriptBuffer {
    ghost use Rattle.script_streams.specs.Lines.{IsLine, KeepsLine};
    ghost use Rattle.std.specs.Bool.{OnFalse};
    ghost use Rattle.std.specs.Io.KnownBytes.{IsAtEnd};
    ghost use Rattle.script_streams.specs.Reading.{held_bytes, reads_made, steps_left, Gives, GivesLine, GivesRaw, Stops};
    ghost use Rattle.script_streams.specs.GoingOn.{TakesLine, GoesOn};
    ghost use Rattle.script_streams.specs.Printing.{Prints, sink, has_failed, held_text};

    /// A buffer that holds nothing, before the first read.
    pub fn new() -> Self
        ensures empty { held_bytes result ≡ [] }
        ensures unread { reads_made result ≡ 0 }
    {
        ScriptBuffer::after_reads(0)
    }

    /// A buffer that holds nothing, after `reads` reads, each of which gave a byte that was used: of 2^40 that a script may
    /// take the others are left.
    pub fn after_reads(reads: u64) -> Self
        requires { reads ≤ 2 ^ 40 }
        ensures empty { held_bytes result ≡ [] }
        ensures counted { reads_made result ≡ reads }
    {
        ScriptBuffer {
            bytes: zeros(),
            start: 0,
            end: 0,
            reads,
        }
    }

    // The bytes that were read and not used yet.
    fn held(&self) -> &[u8]
        ensures { result.now ≡ held_bytes self.now }
    {
        self.bytes
            .split_at(self.start)
            .1
            .split_at(self.end - self.start)
            .0
    }

    // Drops the first bytes that are held, which were used.
    fn use_up(&mut self, count: usize)
        requires { count ≤ length (held_bytes self.old) }
        ensures held { held_bytes self.old ≡ take count (held_bytes self.old) ++ held_bytes self.new }
        ensures reads { reads_made self.new ≡ reads_made self.old }
        ensures steps { steps_left self.new + count ≡ steps_left self.old }
    {
        self.start += count;
    }

    /// Reads the next line: the bytes up to the next newline, or all bytes that are left
    /// if the input ends before one. `line` then keeps it and drops its old content. Text
    /// that was printed is written to the output before the input is asked for more.
    ///
    /// # Errors
    ///
    /// `ReadFailed` if the input failed in this call, and `TooManyReads` if more bytes are wanted and 2^40 reads were
    /// made, each of which gave a byte. In both cases the bytes since the last newline are lost.
    pub fn next_line<I: Input, O: Output>(
        &mut self,
        input: &mut I,
        line: &mut KeptLine,
        reply: &mut Reply<'_, O>,
    ) -> Result<LineEnding, ReadStop>
        ensures gives { GivesLine (I.remaining input.old) (I.remaining input.new) self.old self.new line.new result }
        ensures stops { Stops (I.failures input.old) (I.failures input.new) self.new result }
        ensures states { Prints (sink O.Output reply.old) (sink O.Output reply.new) [] }
        ensures failed { has_failed reply.old ≡ true → has_failed reply.new ≡ true }
    {
        line.clear();
        if self.take_line(line) {
            return Ok(LineEnding::Newline);
        }
        reply.flush();
        self.finish_line(input, line, reply)
    }

    /// Reads the next bytes as they are, to the front of `into`, and returns how many: as many as are there, and at least
    /// one unless the input has ended. Text that was printed is written to the output before the input is asked for more.
    ///
    /// # Errors
    ///
    /// As for `next_line`, and no byte is lost.
    pub fn next_raw<I: Input, O: Output>(
        &mut self,
        input: &mut I,
        into: &mut [u8],
        reply: &mut Reply<'_, O>,
    ) -> Result<usize, ReadStop>
        requires { 0 < length into.old }
        ensures gives { GivesRaw (I.remaining input.old) (I.remaining input.new) self.old self.new into.new result }
        ensures stops { Stops (I.failures input.old) (I.failures input.new) self.new result }
        ensures states { Prints (sink O.Output reply.old) (sink O.Output reply.new) [] }
    {
        self.hold_some(input, reply)?;
        Ok(self.copy_held(into))
    }

    // Goes on with a line to its end.
    fn finish_line<I: Input, O: Output>(
        &mut self,
        input: &mut I,
        line: &mut KeptLine,
        reply: &Reply<'_, O>,
    ) -> Result<LineEnding, ReadStop>
        requires { held_text reply.now ≡ [] }
        ensures gives { (start : ScriptBuffer) (a : Option (List ℕ)) (front : List ℕ) → IsLine front → KeepsLine front line.old
            → Gives a (I.remaining input.old) start self.old front
            → GivesLine a (I.remaining input.new) start self.new line.new result }
        ensures stops { Stops (I.failures input.old) (I.failures input.new) self.new result }
    {
        loop {
            if let Some(ending) = self.go_on(input, line, reply)? {
                return Ok(ending);
            }
        }
    }

    // Goes on with a line: to its end, or to the next read.
    fn go_on<I: Input, O: Output>(
        &mut self,
        input: &mut I,
        line: &mut KeptLine,
        reply: &Reply<'_, O>,
    ) -> Result<Option<LineEnding>, ReadStop>
        requires { held_text reply.now ≡ [] }
        ensures gives { (front : List ℕ) → KeepsLine front line.old
            → GoesOn front (I.remaining input.old) (I.remaining input.new) self.old self.new line.new result }
        ensures nearer { result ≡ Ok None → steps_left self.new < steps_left self.old }
        ensures stops { Stops (I.failures input.old) (I.failures input.new) self.new result }
    {
        if self.take_line(line) {
            return Ok(Some(LineEnding::Newline));
        }
        self.refill(input, reply)?;
        if !self.held().is_empty() {
            return Ok(None);
        }
        if line.is_empty() {
            Ok(Some(LineEnding::NothingLeft))
        } else {
            Ok(Some(LineEnding::EndOfInput))
        }
    }

    // Moves the held bytes into a line, up to the next newline, which is dropped. Returns whether there was one.
    fn take_line(&mut self, line: &mut KeptLine) -> bool
        ensures gives { (front : List ℕ) → KeepsLine front line.old → TakesLine front self.old self.new line.new result }
        ensures emptied { OnFalse result (held_bytes self.new ≡ []) }
        ensures steps { steps_left self.new ≤ steps_left self.old }
    {
        let held = self.held();
        match memchr(b'\n', held) {
            Some(at) => {
                line.keep(held.split_at(at).0);
                self.use_up(at + 1);
                true
            }
            None => {
                let all = held.len();
                line.keep(held);
                self.use_up(all);
                false
            }
        }
    }

    // Copies the held bytes to the front of a slice, as many as fit there, and returns how many.
    fn copy_held(&mut self, into: &mut [u8]) -> usize
        ensures count { result ≡ min (length (held_bytes self.old)) (length into.old) }
        ensures bytes { held_bytes self.old ≡ take result into.new ++ held_bytes self.new }
        ensures reads { reads_made self.new ≡ reads_made self.old }
        ensures steps { steps_left self.new + result ≡ steps_left self.old }
    {
        let held = self.held();
        let count = held.len().min(into.len());
        into[..count].copy_from_slice(&held[..count]);
        self.use_up(count);
        count
    }

    // Reads once, unless something is held.
    fn hold_some<I: Input, O: Output>(
        &mut self,
        input: &mut I,
        reply: &mut Reply<'_, O>,
    ) -> Result<(), ReadStop>
        ensures gives { Gives (I.remaining input.old) (I.remaining input.new) self.old self.new [] }
        ensures end { OnOk result (held_bytes self.new ≡ [] → IsAtEnd (I.remaining input.new)) }
        ensures err { OnErr result (held_bytes self.new ≡ []) }
        ensures stops { Stops (I.failures input.old) (I.failures input.new) self.new result }
        ensures states { Prints (sink O.Output reply.old) (sink O.Output reply.new) [] }
    {
        if self.held().is_empty() {
            reply.flush();
            return self.refill(input, reply);
        }
        Ok(())
    }

    // Asks the input for more, when nothing of it is held and nothing of the replies is held back: whoever gives the input
    // sees each reply before the next line is waited for.
    fn refill<I: Input, O: Output>(
        &mut self,
        input: &mut I,
        reply: &Reply<'_, O>,
    ) -> Result<(), ReadStop>
        requires empty { held_bytes self.old ≡ [] }
        requires heard { held_text reply.now ≡ [] }
        ensures gives { Gives (I.remaining input.old) (I.remaining input.new) self.old self.new [] }
        ensures nearer { 0 < length (held_bytes self.new) → steps_left self.new < steps_left self.old }
        ensures end { OnOk result (held_bytes self.new ≡ [] → IsAtEnd (I.remaining input.new)) }
        ensures err { OnErr result (held_bytes self.new ≡ []) }
        ensures stops { Stops (I.failures input.old) (I.failures input.new) self.new result }
    {
        if self.reads == MOST_READS {
            return Err(ReadStop::TooManyReads);
        }
        let Ok(count) = input.read(&mut self.bytes) else {
            return Err(ReadStop::ReadFailed);
        };
        if count > 0 {
            self.reads += 1;
        }
        self.start = 0;
        self.end = count;
        Ok(())
    }
}

fn zeros() -> [u8; 65536] {
    [0; 65536]
}
