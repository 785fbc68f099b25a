// A reader that may have nothing yet.
ghost use Rattle.std.specs.Prelude.{◌≡◌};

use std::io::{ErrorKind, Read};
use std::time::{Clock, Duration};
use std::{io, thread};

// The milliseconds between two reads of an input that has nothing yet.
const PAUSE_MILLIS: u64 = 10;

// A reader as it is, except that if a read would have to wait, it is made again after a pause. A pipe is like that if the parent of
// the program made it non-blocking (O_NONBLOCK, open(2)). Once it gave nothing for too long, each read fails.
#[derive(Drop)]
pub(crate) struct PatientInput<'p, R: Clock, I: Read> {
    rt: &'p R,
    reader: &'p mut I,
    // For how many seconds it may give nothing, if that is bounded.
    stall: Option<u64>,
    has_stalled: bool,
}

impl<'p, R: Clock, I: Read> PatientInput<'p, R, I> {
    pub(crate) fn new(rt: &'p R, reader: &'p mut I, stall: Option<u64>) -> PatientInput<'p, R, I>
        ensures remaining { ⟦<PatientInput<'p, R, I> as Read>⟧.remaining result ≡ I.remaining reader.entry.now }
    {
        PatientInput {
            rt,
            reader,
            stall,
            has_stalled: false,
        }
    }

    // For how many seconds it gave nothing, if that was too long.
    pub(crate) fn stalled(&self) -> Option<u64> {
        if self.has_stalled { self.stall } else { None }
    }

    // Whether it gave nothing for too long, if it was asked at this time.
    fn is_over(&self, asked: Option<Duration>) -> bool {
        match (self.stall, asked, self.rt.monotonic()) {
            (Some(stall), Some(asked), Ok(now)) => now.saturating_sub(asked).as_secs() >= stall,
            _ => false,
        }
    }
}

impl<R: Clock, I: Read> Read for PatientInput<'_, R, I> {
    ghost remaining = { λ s. I.remaining s.reader.now };

    fn read(&mut self, buf: &mut [u8]) -> io::Result<usize> {
        let asked = self.rt.monotonic().ok();
        for _ in 0..u64::MAX {
            if self.has_stalled {
                return Err(io::Error::from(ErrorKind::TimedOut));
            }
            match self.reader.read(buf) {
                Err(error) if error.kind() == ErrorKind::WouldBlock => {
                    self.has_stalled = self.is_over(asked);
                    thread::sleep(self.rt, Duration::from_millis(PAUSE_MILLIS));
                }
                answered => return answered,
            }
        }
        Err(io::Error::from(ErrorKind::WouldBlock))
    }
}
