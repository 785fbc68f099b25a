// Text that is kept, and goes nowhere by itself.
ghost use Rattle.std.specs.Prelude.{◌≡◌, [], Some};

use diagnostics::after_failure;
use script_streams::{Output, StreamFault};
use std::alloc::Global;

/// An output that keeps the bytes that it takes, as far as there is memory.
#[derive(Drop)]
pub struct Collected {
    text: Vec<u8>,
    failures: u64,
}

impl Collected {
    pub fn new(alloc: Global) -> Collected
        ensures { ⟦<Collected as Output>⟧.taken result ≡ Some [] }
    {
        Collected {
            text: Vec::new(alloc),
            failures: 0,
        }
    }

    /// The bytes that it has taken.
    pub fn text(&self) -> &[u8]
        ensures { ⟦<Collected as Output>⟧.taken self.now ≡ Some result.now }
    {
        &self.text
    }
}

impl Output for Collected {
    ghost taken = { λ s. Some s.text.items };

    ghost failures = { λ s. s.failures };

    fn write(&mut self, from: &[u8]) -> Result<usize, StreamFault> {
        match self.text.extend_from_slice(from) {
            Ok(()) => Ok(from.len()),
            Err(_) => {
                self.failures = after_failure(self.failures);
                Err(StreamFault)
            }
        }
    }
}
