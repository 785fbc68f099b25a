//! The parts of a template.
ghost use Rattle.std.specs.Prelude.{◌≡◌, ◌<◌, [], ◌∷◌, length, MatchOption};
ghost use Rattle.stream_names.specs.Template.{parts_of};

/// A part of a template.
#[derive(Clone, Copy)]
pub enum Part {
    /// A percent and the byte after it.
    Letter(u8),
    /// A percent at the end.
    Lone,
    /// Any other byte.
    Plain(u8),
}

// The first part of a template, and the template after it.
pub(crate) fn next_part(template: &[u8]) -> Option<(Part, &[u8])>
    ensures part { MatchOption result (parts_of template.now ≡ [])
        (λ found. parts_of template.now ≡ found.0 ∷ parts_of found.1.now) }
    ensures shorter { MatchOption result (Unit {0}) (λ found. length found.1.now < length template.now) }
{
    match template {
        [] => None,
        [b'%'] => Some((Part::Lone, &[])),
        [b'%', letter, rest @ ..] => Some((Part::Letter(*letter), rest)),
        [byte, rest @ ..] => Some((Part::Plain(*byte), rest)),
    }
}
