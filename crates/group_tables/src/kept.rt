//! Text that is kept in memory.
ghost use Rattle.std.specs.Prelude.{◌≡◌, [], Some};

use diagnostics::after_failure;
use script_streams::{Output, StreamFault};
use std::alloc::Global;

// An output that keeps the printed text, as far as there is memory.
#[derive(Drop)]
pub(crate) struct KeptText {
    text: Vec<u8>,
    failures: u64,
}

impl KeptText {
    pub(crate) fn new(alloc: Global) -> KeptText
        ensures { ⟦<KeptText as Output>⟧.taken result ≡ Some [] }
    {
        KeptText {
            text: Vec::new(alloc),
            failures: 0,
        }
    }

    // The text that was printed.
    pub(crate) fn into_text(self) -> Vec<u8>
        ensures { ⟦<KeptText as Output>⟧.taken self ≡ Some result.items }
    {
        self.text
    }
}

impl Output for KeptText {
    ghost taken = { λ s. Some s.text.items };

    ghost failures = { λ s. s.failures };

    fn write(&mut self, from: &[u8]) -> Result<usize, StreamFault> {
        match self.text.extend_from_slice(from) {
            Ok(()) => Ok(from.len()),
            Err(_) => {
                self.failures = after_failure(self.failures);
                Err(StreamFault)
            }
        }
    }
}
