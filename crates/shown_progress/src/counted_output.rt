// An output whose bytes are counted.
ghost use Rattle.std.specs.Prelude.{◌≡◌};

use diagnostics::Onlooker;
use script_streams::{Output, StreamFault};

/// An output as it is. It reports each byte that it takes to an onlooker.
#[derive(Drop)]
pub struct CountedOutput<'p, O: Output, W: Onlooker> {
    output: &'p mut O,
    onlooker: &'p mut W,
}

impl<'p, O: Output, W: Onlooker> CountedOutput<'p, O, W> {
    pub fn new(output: &'p mut O, onlooker: &'p mut W) -> CountedOutput<'p, O, W>
        ensures taken { ⟦<CountedOutput<'p, O, W> as Output>⟧.taken result ≡ O.taken output.entry.now }
        ensures failures { ⟦<CountedOutput<'p, O, W> as Output>⟧.failures result ≡ O.failures output.entry.now }
    {
        CountedOutput { output, onlooker }
    }
}

impl<O: Output, W: Onlooker> Output for CountedOutput<'_, O, W> {
    ghost taken = { λ s. O.taken s.output.now };

    ghost failures = { λ s. O.failures s.output.now };

    fn write(&mut self, from: &[u8]) -> Result<usize, StreamFault> {
        let count = self.output.write(from)?;
        self.onlooker.advance(count as u64);
        Ok(count)
    }
}
