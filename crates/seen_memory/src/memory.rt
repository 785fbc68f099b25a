// The part of a process's memory that is at hand.
ghost use Rattle.std.specs.Prelude.{◌≡◌};
ghost use Rattle.address_space.specs.SpaceWords.{core_of};

use crate::part::Part;
use address_space::AddressSpace;

/// The memory of a process. Of its core's image the first bytes are at hand, and parts of the rest.
#[derive(Clone, Copy)]
pub struct SeenMemory<'s, 'c> {
    /// The memory that the first bytes of the image describe, as a core of their own.
    pub space: &'s AddressSpace<'c>,
    /// The first bytes of the image.
    pub front: &'s [u8],
    /// How many bytes the image has.
    pub size: u64,
    /// The parts.
    pub parts: &'s [Part<'s>],
    /// The space is that of the first bytes.
    pub ghost own: { front.now ≡ core_of space.now },
}

/// A byte of an image that is wanted and not at hand.
#[derive(Clone, Copy, PartialEq, Eq)]
pub struct Unread {
    /// Its place in the image.
    pub place: u64,
}
