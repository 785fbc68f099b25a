// The counts.
ghost use Rattle.std.specs.Prelude.{◌≡◌, ◌++◌, ℕ, List, Some, IfOk, IfSome, replicate};
ghost use Rattle.std.specs.List.{flat_map, slice_set};
ghost use Rattle.std.specs.Option.{option_map};
ghost use Rattle.handler_files.specs.Counters.{place, reason_behind};
ghost use Rattle.handler_files.specs.Counts.{AreCounts, count_of, counts_text, line, more};

use crate::counters::{ALL, COUNTERS, Counter, counter_at};
use crate::reading::read_line;
use crate::reasons::Reason;
use script_words::print_decimal;
use std::alloc::{AllocError, Global};

/// How many cores each counter has counted.
#[derive(Clone, Copy, PartialEq, Eq)]
pub struct Counts {
    counts: [u64; COUNTERS],
}

impl Counts {
    /// Nothing was counted.
    pub fn none() -> Counts
        ensures { result.counts ≡ replicate 25 0 }
    {
        Counts {
            counts: [0; COUNTERS],
        }
    }

    /// The count of a counter.
    pub fn of(&self, counter: Counter) -> u64
        ensures { result ≡ count_of self.now.counts counter }
    {
        self.counts[counter.place()]
    }

    /// The same, with so many more of one counter. A count stops at the highest number of 64 bits.
    pub fn with(self, counter: Counter, by: u64) -> Counts
        ensures { result.counts ≡ slice_set self.counts (place counter) (more (count_of self.counts counter) by) }
    {
        let mut counts = self.counts;
        let place = counter.place();
        counts[place] = counts[place].saturating_add(by);
        Counts { counts }
    }

    /// The text of a file that has these counts.
    #[tactic(auto, unfolding(crate::specs::Counters::counters))]
    pub fn text(&self, alloc: Global) -> Result<Vec<u8>, AllocError>
        ensures { IfOk result (λ text. text.items ≡ counts_text self.now.counts) }
    {
        let mut text = Vec::new(alloc);
        add_lines(&mut text, &ALL, self)?;
        Ok(text)
    }

    /// Reads the text of such a file, and refuses any other text.
    pub fn of_text(text: &[u8]) -> Option<Counts>
        ensures back { (wanted : List ℕ) → AreCounts wanted → text.now ≡ counts_text wanted → option_map (λ c. c.counts) result ≡ Some wanted }
        ensures only { IfSome result (λ c. text.now ≡ counts_text c.counts) }
    {
        let mut counts = [0; COUNTERS];
        let mut left = text;
        for index in 0..COUNTERS {
            let line = read_line(left, counter_at(index))?;
            counts[index] = line.0;
            left = line.1;
        }
        let is_whole = left.is_empty();
        if is_whole {
            Some(Counts { counts })
        } else {
            None
        }
    }
}

// Adds the lines of these counters.
fn add_lines(text: &mut Vec<u8>, counters: &[Counter], counts: &Counts) -> Result<(), AllocError>
    ensures { IfOk result (λ done. text.new.items ≡ text.old.items ++ flat_map (λ counter. line counter (count_of counts.now.counts counter)) counters.now) }
{
    for counter in counters {
        add_line(text, *counter, counts.of(*counter))?;
    }
    Ok(())
}

// Adds the line of a counter.
#[tactic(auto, unfolding(crate::specs::Counts::line, crate::specs::Counters::name))]
fn add_line(text: &mut Vec<u8>, counter: Counter, count: u64) -> Result<(), AllocError>
    ensures { IfOk result (λ done. text.new.items ≡ text.old.items ++ line counter count) }
{
    text.extend_from_slice(counter.outcome())?;
    add_reason(text, counter.reason())?;
    text.extend_from_slice(b" ")?;
    text.extend_from_slice(&print_decimal(u128::from(count)))?;
    text.extend_from_slice(b"\n")
}

fn add_reason(text: &mut Vec<u8>, reason: Option<Reason>) -> Result<(), AllocError>
    ensures { IfOk result (λ done. text.new.items ≡ text.old.items ++ reason_behind reason) }
{
    let Some(reason) = reason else {
        return Ok(());
    };
    text.extend_from_slice(b" ")?;
    text.extend_from_slice(reason.word())
}
