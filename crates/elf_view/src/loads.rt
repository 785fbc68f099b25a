// The program headers of segments in memory, with their numbers.
ghost use Rattle.std.specs.Prelude.{◌≡◌, ◌+◌, ◌≤◌, ◌^◌, [], ◌∷◌, MatchOption, length};
ghost use Rattle.elf_view.specs.Header.{loads_from};
ghost use Rattle.elf_view.specs.SegmentWords.{segments_left};

use crate::program_headers::{Segment, Segments};

/// A PT_LOAD.
#[derive(Clone, Copy, Debug)]
pub struct Load<'a> {
    /// The number of its program header in the table.
    pub number: u64,
    /// The program header.
    pub segment: Segment<'a>,
}

/// The PT_LOADs of an image, in table order.
#[derive(Clone, Copy, Debug)]
pub struct Loads<'a> {
    segments: Segments<'a>,
    number: u64,
    ghost few: { number + length (segments_left segments) ≤ 2 ^ 32 },
}

impl<'a> Load<'a> {
    ghost use Rattle.elf_view.specs.LoadWords.{load_view};

    /// The next PT_LOAD among program headers, the first of which has that number.
    fn next(segments: &mut Segments<'a>, number: &mut u64) -> Option<Load<'a>>
        requires { number.old + length (segments_left segments.old) ≤ 2 ^ 32 }
        ensures few { number.new + length (segments_left segments.new) ≤ 2 ^ 32 }
        ensures load { MatchOption result
            ((loads_from number.old (segments_left segments.old) ≡ [])
            × (loads_from number.new (segments_left segments.new) ≡ []))
            (λ load. loads_from number.old (segments_left segments.old)
            ≡ load_view load ∷ loads_from number.new (segments_left segments.new)) }
    {
        while let Some(segment) = segments.next() {
            let at = *number;
            *number += 1;
            if segment.is_load() {
                return Some(Load {
                    number: at,
                    segment,
                });
            }
        }
        None
    }
}

impl<'a> Loads<'a> {
    ghost use Rattle.elf_view.specs.LoadWords.{loads_left};

    /// The PT_LOADs among the program headers of a table.
    #[tactic(auto, unfolding(crate::specs::LoadWords::loads_left))]
    pub(crate) fn new(segments: Segments<'a>) -> Loads<'a>
        requires { length (segments_left segments) ≤ 2 ^ 32 }
        ensures { loads_left result ≡ loads_from 0 (segments_left segments.entry) }
    {
        Loads {
            segments,
            number: 0,
        }
    }
}

impl<'a> Iterator for Loads<'a> {
    ghost use Rattle.std.specs.Iterator.{YieldsFirstBy, item_count};
    ghost use Rattle.elf_view.specs.LoadWords.{load_view, loads_left};

    type Item = Load<'a>;

    ghost next_gives = { YieldsFirstBy load_view loads_left };

    ghost remaining = { item_count loads_left };

    #[tactic(auto, unfolding(crate::specs::LoadWords::loads_left))]
    fn next(&mut self) -> Option<Load<'a>> {
        Load::next(&mut self.segments, &mut self.number)
    }
}
