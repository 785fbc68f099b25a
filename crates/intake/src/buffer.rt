// The block that a stream fills.
ghost use Rattle.std.specs.Prelude.{◌≡◌, ◌≤◌, ◌-◌, ◌++◌, [], take, drop, replicate, length, IfOk};
ghost use Rattle.std.specs.Borrow.{sem};
ghost use Rattle.intake.specs.Contents.{zero_block};

use crate::ArchiveFault;
use std::alloc::{AllocError, Global};
use std::marker::Model;

/// The bytes of a block that is filled. Contracts see them as a list.
#[derive(Drop)]
pub(crate) struct Buffer {
    bytes: Vec<u8>,
}

impl Model for Buffer {
    ghost use Rattle.std.specs.Prelude.{List, ℕ};

    ghost Value = { List ℕ };

    ghost view = { λ b. b.bytes.items };
}

impl Buffer {
    ghost use Rattle.intake.specs.Lending.{LendsTail};

    /// No bytes, if no stream is open.
    pub(crate) fn empty(alloc: Global) -> Buffer
        ensures { result ≡ [] }
    {
        Buffer {
            bytes: Vec::new(alloc),
        }
    }

    /// A block of zeros.
    #[tactic(auto, unfolding(crate::specs::Contents::zero_block))]
    pub(crate) fn zeros(alloc: Global) -> Result<Buffer, AllocError>
        ensures { IfOk result (λ b. b ≡ zero_block) }
    {
        Ok(Buffer {
            bytes: vec![in alloc; 0u8; 4096]?,
        })
    }

    /// How many bytes there are.
    pub(crate) fn len(&self) -> usize
        ensures { result ≡ length self.now }
    {
        self.bytes.len()
    }

    /// Gives the caller the bytes from a place on, with a reply.
    pub(crate) fn lend(
        &mut self,
        reply: Result<(), ArchiveFault>,
        from: usize,
    ) -> (Result<(), ArchiveFault>, &mut [u8])
        requires { from ≤ length self.old }
        ensures* writes_back { sem 𝓛 (LendsTail self.entry from result) }
        ensures reply { result.0 ≡ reply }
        ensures lent { result.1.now ≡ drop from self.old }
    {
        (reply, self.bytes.slice_mut(from..))
    }

    /// The bytes.
    pub(crate) fn bytes(&self) -> &[u8]
        ensures { result.now ≡ self.now }
    {
        &self.bytes
    }

    /// Writes zeros from a place on.
    pub(crate) fn clear_from(&mut self, from: usize)
        requires { from ≤ length self.old }
        ensures { self.new ≡ take from self.old ++ replicate (length self.old - from) 0 }
    {
        fill_from(&mut self.bytes, from);
    }
}

// Writes zeros from a place on.
fn fill_from(bytes: &mut [u8], from: usize)
    requires { from ≤ length bytes.old }
    ensures { bytes.new ≡ take from bytes.old ++ replicate (length bytes.old - from) 0 }
{
    bytes[from..].fill(0);
}
