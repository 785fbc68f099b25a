// The last line of an output.
ghost use Rattle.std.specs.Prelude.{◌≡◌};

use arrayvec::ArrayVec;
use script_streams::{Output, StreamFault};

// How many bytes of a line are kept at most: those of a reason.
const KEPT: usize = 128;

/// The last line of an output, or the bytes after its last newline, unless it has more bytes than are kept.
#[derive(Drop)]
pub struct LastLine {
    text: ArrayVec<u8, 128>,
    // It has more bytes than are kept.
    is_cut: bool,
    // A newline ends it.
    is_whole: bool,
    // No line precedes it.
    is_first: bool,
}

impl LastLine {
    fn new() -> LastLine {
        LastLine {
            text: ArrayVec::new(),
            is_cut: false,
            is_whole: false,
            is_first: true,
        }
    }

    /// Whether no line precedes it.
    pub(crate) fn is_first(&self) -> bool {
        self.is_first
    }

    /// The line; empty if not all of it is kept.
    pub fn text(&self) -> &[u8] {
        if self.is_cut {
            b""
        } else {
            self.text.as_slice()
        }
    }

    // More bytes of the output. Only the last of them can be of the last line, if that is kept.
    fn add(&mut self, bytes: &[u8]) {
        let skipped = bytes.len().saturating_sub(KEPT + 1);
        if skipped > 0 {
            self.is_cut = true;
            self.is_whole = false;
            self.is_first = false;
        }
        for byte in &bytes[skipped..] {
            self.add_byte(*byte);
        }
    }

    fn add_byte(&mut self, byte: u8) {
        if self.is_whole {
            self.begin();
        }
        if byte == b'\n' {
            self.is_whole = true;
        } else if self.text.try_push(byte).is_err() {
            self.is_cut = true;
        }
    }

    fn begin(&mut self) {
        self.text.clear();
        self.is_cut = false;
        self.is_whole = false;
        self.is_first = false;
    }
}

/// An output, and its last line. The bytes that it takes go to the output below it.
#[derive(Drop)]
pub struct Watched<'a, O: Output> {
    output: &'a mut O,
    line: LastLine,
}

impl<'a, O: Output> Watched<'a, O> {
    /// Over this output, with no line yet.
    pub fn new(output: &'a mut O) -> Watched<'a, O> {
        Watched {
            output,
            line: LastLine::new(),
        }
    }

    /// The last line. The output is let go.
    pub fn into_line(self) -> LastLine {
        let Watched { line, .. } = self;
        line
    }
}

impl<O: Output> Output for Watched<'_, O> {
    ghost taken = { λ s. O.taken s.output.now };

    ghost failures = { λ s. O.failures s.output.now };

    fn write(&mut self, from: &[u8]) -> Result<usize, StreamFault> {
        let count = self.output.write(from)?;
        self.line.add(&from[..count]);
        Ok(count)
    }
}
