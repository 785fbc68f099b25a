//! Each query has a line that says it.
ghost use Rattle.std.specs.Prelude.{◌≡◌, ◌<◌, ◌≤◌, ◌^◌, ℕ, List};
ghost use Rattle.script_lines.specs.Queries.{QuerySaid, IsSayable};
ghost use Rattle.script_lines.specs.Said.{said, inspect_of};

use script_words::{printed_bytes_are_read_again, printed_numbers_are_read_again};

/// Each query can be asked of each case: for a case number from 1 to 2^32 - 1, and a query whose numbers have 64 bits (that of
/// the fewest bytes of a text is 1 to 1,024) and which looks for 1 to 64 bytes, there is a line that says it.
pub fn every_query_can_be_said()
    ensures { (seq : ℕ) (query : QuerySaid) → 1 ≤ seq → seq < 2 ^ 32 → IsSayable query
        → (line : List ℕ) × (said line ≡ inspect_of seq query) }
{
    printed_numbers_are_read_again();
    printed_bytes_are_read_again();
}
