// Going through all addresses that have a value, by the number of the segment that decides them.
ghost use Rattle.std.specs.Prelude.{◌≡◌, ◌+◌, ◌-◌, ◌^◌, ◌<◌, ◌≤◌, ℕ, Bool, [], MatchOption, IfSome, Some, None, drop, false, length};
ghost use Rattle.std.specs.Option.{option_map};
ghost use Rattle.elf_view.specs.Header.{SegmentView, segments_of};
ghost use Rattle.elf_view.specs.ViewWords.{image_of};
ghost use Rattle.address_space.specs.Source.{first_from, is_covering};
ghost use Rattle.address_space.specs.Occurrence.{is_decided_by, ordered_from};
ghost use Rattle.address_space.specs.Orders.{IsOrderOf};

use crate::order::Order;
use crate::runs::{Run, is_by, values_by};
use crate::scan::span;
use crate::space::AddressSpace;
use elf_view::accepted_segments_fit;

/// The progress of a search.
#[derive(Clone, Copy)]
pub(crate) struct Cursor<'a> {
    /// The number of the segment at hand.
    pub number: u64,
    /// The next address.
    pub at: u64,
    /// How many addresses of the segment are left.
    pub left: u64,
    /// The values of the next addresses, as far as they have been looked for.
    pub here: &'a [u8],
    ghost fits: { at + left ≤ 2 ^ 64 },
    ghost within: { length here.now ≤ left },
}

impl<'a> Cursor<'a> {
    ghost use Rattle.address_space.specs.CursorWords.{IsPlaced, work_left};
    ghost use Rattle.address_space.specs.Source.{Space};

    /// The cursor after the next `count` of the addresses whose values are at hand.
    pub(crate) fn passed(self, count: usize) -> Cursor<'a>
        requires { count ≤ length self.here.now }
        ensures number { result.number ≡ self.entry.number }
        ensures left { result.left ≡ self.entry.left - count }
        ensures at { 0 < result.left → result.at ≡ self.entry.at + count }
        ensures here { result.here.now ≡ drop count self.entry.here.now }
        ensures placed { (space : Space) → IsPlaced space self.entry → IsPlaced space result }
        ensures less { (space : Space) → IsPlaced space self.entry → 0 < count
            → work_left space result < work_left space self.entry }
    {
        Cursor {
            number: self.number,
            at: self.at.saturating_add(count as u64),
            left: self.left - count as u64,
            here: &self.here[count..],
        }
    }
}

impl<'a> AddressSpace<'a> {
    ghost use Rattle.address_space.specs.CursorWords.{IsPlaced, IsRun, WantsValue, to_come, work_left};
    ghost use Rattle.address_space.specs.SpaceWords.{space_of};

    /// There are fewer than 2^32 program headers. It does nothing.
    #[tactic(auto, unfolding(crate::specs::SpaceWords::space_of))]
    fn segments_are_few(&self)
        ensures { length (space_of self.now).segments < 2 ^ 32 }
    {
        let _ = self.elf.segments();
    }

    /// The front of the segment of that number.
    pub(crate) fn begin(&self, number: u64) -> Option<Cursor<'a>>
        ensures placed { IfSome result (IsPlaced (space_of self.now)) }
        ensures first { IfSome result (λ c. c.number ≡ number) }
        ensures same { (test : ℕ → Bool) → MatchOption result
            (ordered_from (space_of self.now) test number (drop number (space_of self.now).segments) ≡ [])
            (λ c. ordered_from (space_of self.now) test number (drop number (space_of self.now).segments)
            ≡ to_come (space_of self.now) test c) }
    {
        let segment = self.elf.segment(number)?;
        accepted_segments_fit();
        Some(Cursor {
            number,
            at: segment.vaddr,
            left: span(&segment),
            here: &[],
        })
    }

    /// If the segment at hand does not decide the next address: the next address that it decides or, if it decides no
    /// more, the front of the next segment that decides any.
    #[tactic(auto, unfolding(crate::specs::Source::decider, crate::specs::SpaceWords::space_of))]
    fn leap(&self, order: &Order, cursor: Cursor<'a>) -> Option<Cursor<'a>>
        requires placed { IsPlaced (space_of self.now) cursor }
        requires none { length cursor.here.now ≡ 0 }
        requires left { 0 < cursor.left }
        requires order { IsOrderOf (λ a. option_map (λ (d : ℕ × SegmentView). d.0)
            (first_from (is_covering a) 0 (segments_of (image_of self.now.elf)))) order.now.rows.items }
        requires elsewhere { is_decided_by (space_of self.now) cursor.number cursor.at ≡ false }
        ensures placed { IfSome result (IsPlaced (space_of self.now)) }
        ensures less { IfSome result (λ d. work_left (space_of self.now) d < work_left (space_of self.now) cursor.entry) }
        ensures same { (test : ℕ → Bool) → MatchOption result
            (to_come (space_of self.now) test cursor.entry ≡ [])
            (λ d. to_come (space_of self.now) test cursor.entry ≡ to_come (space_of self.now) test d) }
    {
        let row = order.next(cursor.number, cursor.at)?;
        if row.number > cursor.number {
            self.segments_are_few();
            return self.begin(row.number);
        }
        let skipped = cursor.left.min(row.start - cursor.at);
        Some(Cursor {
            number: cursor.number,
            at: cursor.at.saturating_add(skipped),
            left: cursor.left - skipped,
            here: &[],
        })
    }

    /// The next step of a search, if the segment at hand has no values for the next addresses.
    fn skipped(&self, cursor: Cursor<'a>, run: Run<'a>) -> Option<Cursor<'a>>
        requires placed { IsPlaced (space_of self.now) cursor }
        requires none { length cursor.here.now ≡ 0 }
        requires left { 0 < cursor.left }
        requires run { IsRun (space_of self.now) cursor.at cursor.left run.length run.number
            (option_map (λ bytes. bytes.now) run.bytes) }
        requires absent { run.number ≡ Some cursor.number → option_map (λ bytes. bytes.now) run.bytes ≡ None }
        ensures placed { IfSome result (IsPlaced (space_of self.now)) }
        ensures less { IfSome result (λ d. work_left (space_of self.now) d < work_left (space_of self.now) cursor.entry) }
        ensures same { (test : ℕ → Bool) → WantsValue (space_of self.now) test → MatchOption result
            (to_come (space_of self.now) test cursor.entry ≡ [])
            (λ d. to_come (space_of self.now) test cursor.entry ≡ to_come (space_of self.now) test d) }
    {
        if let Some(sheet) = &self.sheet {
            if !is_by(run, cursor.number) {
                return self.leap(&sheet.order, cursor);
            }
        }
        Some(Cursor {
            number: cursor.number,
            at: cursor.at.saturating_add(run.length),
            left: cursor.left - run.length,
            here: &[],
        })
    }

    /// The next step of a search, if no values are at hand.
    fn onward(&self, cursor: Cursor<'a>) -> Option<Cursor<'a>>
        requires placed { IsPlaced (space_of self.now) cursor }
        requires none { length cursor.here.now ≡ 0 }
        ensures placed { IfSome result (IsPlaced (space_of self.now)) }
        ensures less { IfSome result (λ d. work_left (space_of self.now) d < work_left (space_of self.now) cursor.entry) }
        ensures same { (test : ℕ → Bool) → WantsValue (space_of self.now) test → MatchOption result
            (to_come (space_of self.now) test cursor.entry ≡ [])
            (λ d. to_come (space_of self.now) test cursor.entry ≡ to_come (space_of self.now) test d) }
    {
        if cursor.left == 0 {
            self.segments_are_few();
            return self.begin(cursor.number + 1);
        }
        let run = self.run(cursor.at, cursor.left);
        match values_by(run, cursor.number) {
            Some(here) => Some(Cursor {
                number: cursor.number,
                at: cursor.at,
                left: cursor.left,
                here,
            }),
            None => self.skipped(cursor, run),
        }
    }

    /// The next addresses that have values.
    pub(crate) fn settle(&self, cursor: Cursor<'a>) -> Option<Cursor<'a>>
        requires { IsPlaced (space_of self.now) cursor }
        ensures placed { IfSome result (IsPlaced (space_of self.now)) }
        ensures some { IfSome result (λ d. 0 < length d.here.now) }
        ensures less { IfSome result (λ d. work_left (space_of self.now) d ≤ work_left (space_of self.now) cursor.entry) }
        ensures same { (test : ℕ → Bool) → WantsValue (space_of self.now) test → MatchOption result
            (to_come (space_of self.now) test cursor.entry ≡ [])
            (λ d. to_come (space_of self.now) test cursor.entry ≡ to_come (space_of self.now) test d) }
    {
        let mut ahead = cursor;
        while ahead.here.is_empty() {
            ahead = self.onward(ahead)?;
        }
        Some(ahead)
    }
}
