// A part of an image.
ghost use Rattle.std.specs.Prelude.{◌≡◌, ◌≤◌, ◌+◌, ℕ, List};
ghost use Rattle.elf_view.specs.Field.{part};
ghost use Rattle.memory_replies.specs.Window.{IsPartOf, past_of};

use elf_view::part;

/// The bytes at hand of an image, apart from its first bytes.
#[derive(Clone, Copy)]
pub struct Window<'a> {
    /// How many bytes the image has.
    pub size: u64,
    /// The place in the image at which the window begins.
    pub at: u64,
    /// Its bytes.
    pub bytes: &'a [u8],
}

impl<'a> Window<'a> {
    /// The bytes of the image from a place on, as far as they are in the window.
    pub(crate) fn read(&self, offset: u64, count: u64) -> &'a [u8]
        ensures { (image : List ℕ) → IsPartOf image self.now.at self.now.bytes.now → self.now.at ≤ offset → offset + count ≤ past_of self.now.at self.now.bytes.now
            → result.now ≡ part image offset count }
    {
        part(self.bytes, offset.saturating_sub(self.at), count)
    }
}
