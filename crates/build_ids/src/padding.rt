// How the parts of notes are padded.
ghost use Rattle.std.specs.Prelude.{◌≡◌, ◌<◌, ◌+◌, ◌^◌};
ghost use Rattle.build_ids.specs.Notes as spec;

/// To how many bytes a note's descriptor, and the note after it, are padded (System V gABI, "Note Section").
#[derive(Clone, Copy, PartialEq, Eq)]
pub enum Padding {
    /// Their places are multiples of four.
    Four,
    /// Their places are multiples of eight.
    Eight,
}

impl Padding {
    /// That of a PT_NOTE by its p_align.
    pub(crate) fn by(align: u64) -> Padding
        ensures { result ≡ spec.padding_by align }
    {
        match align {
            8 => Padding::Eight,
            _ => Padding::Four,
        }
    }

    /// The first such place that is not before a place.
    pub(crate) fn padded(self, place: u64) -> u64
        requires { place < 2 ^ 63 }
        ensures is { result ≡ spec.padded self place }
        ensures near { result < place + 8 }
    {
        match self {
            Padding::Four => (place + 3) / 4 * 4,
            Padding::Eight => (place + 7) / 8 * 8,
        }
    }
}
