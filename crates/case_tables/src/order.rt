// In which order a list shows its cases.
ghost use Rattle.std.specs.Prelude.{◌≡◌, map};
ghost use Rattle.journal_layout.specs.Case.{case_of};
ghost use Rattle.case_tables.specs.Order.{IsShown, rank};

use journal_layout::Entry;

/// In which order cases are shown.
#[derive(Clone, Copy, PartialEq, Eq)]
pub enum Order {
    /// By their numbers, as they are stored.
    Number,
    /// By their times, the earliest first, and cases of one time by their numbers. A case without a time comes first.
    Time,
    /// By their bytes, the smallest first, and cases of one size by their numbers.
    Size,
    /// By their names, byte by byte.
    Name,
}

// Puts cases that stand in the order of their numbers in another one.
pub(crate) fn put_in_order(cases: &mut Vec<&Entry>, order: Order)
    ensures { IsShown order (map (λ e. case_of e.now) cases.old.items) (map (λ e. case_of e.now) cases.new.items) }
{
    match order {
        Order::Number => {}
        Order::Time => cases.sort_unstable_by_key(|case| rank(case.time, case.seq)),
        Order::Size => cases.sort_unstable_by_key(|case| rank(case.length, case.seq)),
        Order::Name => cases.sort_unstable_by(|a, b| a.name.as_slice().cmp(b.name.as_slice())),
    }
}

// Where a case comes in an order: by a number, and then by its own.
fn rank(number: u64, seq: u32) -> u128
    ensures { result ≡ rank number seq }
{
    (u128::from(number) << 32) + u128::from(seq)
}
