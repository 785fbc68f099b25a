// The texts between the separators of a text.
ghost use Rattle.std.specs.Prelude.{◌≡◌, ◌==◌, ◌<◌, ◌∷◌, IfSome, length, position};
ghost use Rattle.mount_table.specs.Pieces.{pieces_of};
ghost use Rattle.mount_table.specs.PiecesLeft.{pieces_in, pieces_left};

/// The pieces of a text, first to last: the texts before, between and after the bytes that separate them.
#[derive(Clone, Copy)]
pub(crate) struct Pieces<'a> {
    rest: Option<&'a [u8]>,
    separator: u8,
}

impl<'a> Pieces<'a> {
    /// The pieces of a text.
    pub(crate) fn new(text: &'a [u8], separator: u8) -> Pieces<'a>
        ensures { pieces_left result ≡ pieces_of separator text.now }
    {
        Pieces {
            rest: Some(text),
            separator,
        }
    }
}

impl<'a> Iterator for Pieces<'a> {
    ghost use Rattle.std.specs.Iterator.{YieldsFirstBy, item_count};
    ghost use Rattle.mount_table.specs.PiecesLeft.{piece_bytes, pieces_left};

    type Item = &'a [u8];

    ghost next_gives = { YieldsFirstBy piece_bytes pieces_left };

    ghost remaining = { item_count pieces_left };

    fn next(&mut self) -> Option<&'a [u8]> {
        let text = self.rest?;
        let (piece, rest) = first_piece(text, self.separator);
        self.rest = rest;
        Some(piece)
    }
}

// The first piece of a text, and the text of the others.
fn first_piece(text: &[u8], separator: u8) -> (&[u8], Option<&[u8]>)
    ensures { pieces_of separator text.now ≡ result.0.now ∷ pieces_in separator result.1 }
{
    match place_of(text, separator) {
        Some(at) => {
            let (piece, rest) = text.split_at(at);
            (piece, Some(rest.split_at(1).1))
        }
        None => (text, None),
    }
}

// The place of the first such byte in a text.
fn place_of(text: &[u8], byte: u8) -> Option<usize>
    ensures place { result ≡ position (λ c. c == byte) text.now }
    ensures within { IfSome result (λ at. at < length text.now) }
{
    text.iter().position(|c| *c == byte)
}
