// A reader whose bytes are counted.
ghost use Rattle.std.specs.Prelude.{◌≡◌};

use diagnostics::Onlooker;
use std::io;
use std::io::Read;

/// A reader as it is. It reports each byte that it gives to an onlooker.
#[derive(Drop)]
pub struct CountedInput<'p, I: Read, W: Onlooker> {
    reader: &'p mut I,
    onlooker: &'p mut W,
}

impl<'p, I: Read, W: Onlooker> CountedInput<'p, I, W> {
    pub fn new(reader: &'p mut I, onlooker: &'p mut W) -> CountedInput<'p, I, W>
        ensures remaining { ⟦<CountedInput<'p, I, W> as Read>⟧.remaining result ≡ I.remaining reader.entry.now }
    {
        CountedInput { reader, onlooker }
    }
}

impl<I: Read, W: Onlooker> Read for CountedInput<'_, I, W> {
    ghost remaining = { λ s. I.remaining s.reader.now };

    fn read(&mut self, buf: &mut [u8]) -> io::Result<usize> {
        let count = self.reader.read(buf)?;
        self.onlooker.advance(count as u64);
        Ok(count)
    }
}
