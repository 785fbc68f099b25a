// The pieces of a range of addresses.
ghost use Rattle.std.specs.Prelude.{◌+◌, ◌^◌, ◌≤◌};

use crate::source::Piece;
use crate::space::AddressSpace;

/// The pieces of a range of addresses, in rising order.
#[derive(Clone, Copy)]
pub struct Pieces<'s, 'a> {
    space: &'s AddressSpace<'a>,
    at: u64,
    left: u64,
    ghost fits: { at + left ≤ 2 ^ 64 },
}

impl<'s, 'a> Pieces<'s, 'a> {
    ghost use Rattle.std.specs.Prelude.{◌≡◌};
    ghost use Rattle.address_space.specs.Pieces.{pieces_of};
    ghost use Rattle.address_space.specs.SpaceWords.{space_of};
    ghost use Rattle.address_space.specs.PieceWords.{pieces_left};

    pub(crate) fn new(space: &'s AddressSpace<'a>, at: u64, left: u64) -> Pieces<'s, 'a>
        requires { at + left ≤ 2 ^ 64 }
        ensures { pieces_left result ≡ pieces_of (space_of space.now) at left }
    {
        Pieces { space, at, left }
    }
}

impl<'s, 'a> Iterator for Pieces<'s, 'a> {
    ghost use Rattle.std.specs.Iterator.{YieldsFirstBy, item_count};
    ghost use Rattle.address_space.specs.SourceWords.{piece_view};
    ghost use Rattle.address_space.specs.PieceWords.{pieces_left};

    type Item = Piece<'a>;

    ghost next_gives = { YieldsFirstBy piece_view pieces_left };

    ghost remaining = { item_count pieces_left };

    fn next(&mut self) -> Option<Piece<'a>> {
        if self.left == 0 {
            return None;
        }
        let located = self.space.locate(self.at, self.left);
        let piece = Piece {
            first: self.at,
            length: located.length,
            kind: located.kind,
        };
        self.left -= located.length;
        self.at = self.at.saturating_add(located.length);
        Some(piece)
    }
}
