// Bytes that are to go on to an output.
use std::alloc::{AllocError, Global};
use std::marker::Model;

/// Bytes that have not gone on yet. Contracts see them as a list.
#[derive(Drop)]
pub struct Unsent {
    text: Vec<u8>,
    // How many bytes of the text have gone on.
    sent: usize,
}

impl Model for Unsent {
    ghost use Rattle.std.specs.Prelude.{◌≤◌, ℕ, List, drop, length};

    ghost Value = { List ℕ };

    ghost view = { λ u. drop u.sent u.text.items };

    ghost invariant = { λ u. u.sent ≤ length u.text.items };
}

impl Unsent {
    ghost use Rattle.std.specs.Prelude.{◌≡◌, ◌≤◌, ◌++◌, [], drop, length, OnErr, OnOk};

    pub fn new(alloc: Global) -> Unsent
        ensures { result ≡ [] }
    {
        Unsent {
            text: Vec::new(alloc),
            sent: 0,
        }
    }

    /// Adds bytes after those that are there, if there is memory.
    pub fn push(&mut self, bytes: &[u8]) -> Result<(), AllocError>
        ensures ok { OnOk result (self.new ≡ self.old ++ bytes.now) }
        ensures err { OnErr result (self.new ≡ self.old) }
    {
        self.text.extend_from_slice(bytes)
    }

    pub fn bytes(&self) -> &[u8]
        ensures { result.now ≡ self.now }
    {
        &self.text[self.sent..]
    }

    /// The first bytes have gone on.
    pub fn skip(&mut self, count: usize)
        requires { count ≤ length self.old }
        ensures { self.new ≡ drop count self.old }
    {
        self.sent += count;
    }
}
