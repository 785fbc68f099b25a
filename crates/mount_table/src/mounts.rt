// The mounts of the table.
ghost use Rattle.std.specs.Prelude.{◌≡◌};
ghost use Rattle.mount_table.specs.Lines.{mounts_of};
ghost use Rattle.mount_table.specs.MountWords.{mounts_left};

use crate::lines::{Mount, mount_in};
use crate::pieces::Pieces;

/// The mounts of the table's text, in its order. A line that is no mount's is left out.
#[derive(Clone, Copy)]
pub(crate) struct Mounts<'a> {
    lines: Pieces<'a>,
}

impl<'a> Mounts<'a> {
    /// The mounts of a text.
    pub(crate) fn new(text: &'a [u8]) -> Mounts<'a>
        ensures { mounts_left result ≡ mounts_of text.now }
    {
        Mounts {
            lines: Pieces::new(text, b'\n'),
        }
    }
}

impl<'a> Iterator for Mounts<'a> {
    ghost use Rattle.std.specs.Iterator.{YieldsFirstBy, item_count};
    ghost use Rattle.mount_table.specs.MountWords.{mount_view, mounts_left};

    type Item = Mount<'a>;

    ghost next_gives = { YieldsFirstBy mount_view mounts_left };

    ghost remaining = { item_count mounts_left };

    fn next(&mut self) -> Option<Mount<'a>> {
        while let Some(line) = self.lines.next() {
            if let Some(mount) = mount_in(line) {
                return Some(mount);
            }
        }
        None
    }
}
