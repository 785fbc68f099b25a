// The function that covers an address, among functions sorted by value.
ghost use Rattle.std.specs.Prelude.{◌≡◌, ◌≤◌, length, take};
ghost use Rattle.std.specs.List.Sorted.{IsNonDecreasingBy};
ghost use Rattle.symbols.specs.Covering as spec;
ghost use Rattle.symbols.specs.Reach.{greatest_ends, is_past};

use crate::functions::Function;

/// Whether a function covers an address.
fn covers(function: Function, address: u64) -> bool
    ensures { result ≡ spec.covers address function }
{
    if address < function.value {
        return false;
    }
    address - function.value < function.size || address == function.value
}

/// Whether the first of two functions that cover an address gives it its name.
#[tactic(auto, unfolding(crate::specs::Covering::is_before))]
fn is_before(one: Function, other: Function) -> bool
    ensures { result ≡ spec.is_before one other }
{
    if one.value != other.value {
        return other.value < one.value;
    }
    if one.rank != other.rank {
        return one.rank < other.rank;
    }
    one.index < other.index
}

/// The one of two that is before the other.
fn nearer(one: Function, other: Option<Function>) -> Option<Function>
    ensures { result ≡ spec.nearer one other }
{
    match other {
        Some(other) if !is_before(one, other) => Some(other),
        _ => Some(one),
    }
}

/// The best so far, once one more function is asked.
fn best_with(function: Function, best: Option<Function>, address: u64) -> Option<Function>
    ensures { result ≡ spec.best_with address function best }
{
    if covers(function, address) {
        nearer(function, best)
    } else {
        best
    }
}

/// Whether a function has a smaller value than the best so far.
fn is_past(best: Option<Function>, function: Function) -> bool
    ensures { result ≡ is_past best function }
{
    match best {
        Some(best) => function.value < best.value,
        None => false,
    }
}

/// The function that gives an address its name among the first `count` of functions that are sorted by value. Each comes
/// with the highest address that one up to it covers. It searches down from the last as far as one may cover the address.
fn named_among(functions: &[Function], ends: &[u64], count: usize, address: u64) -> Option<Function>
    requires ordered { IsNonDecreasingBy (λ f. f.value) functions.now }
    requires reach { ends.now ≡ greatest_ends 0 functions.now }
    requires within { count ≤ length functions.now }
    ensures { result ≡ spec.named address (take count functions.now) }
{
    let mut best = None;
    let mut left = count;
    while left > 0 {
        left -= 1;
        if ends[left] < address {
            return best;
        }
        let function = functions[left];
        if is_past(best, function) {
            return best;
        }
        best = best_with(function, best, address);
    }
    best
}

/// The function that gives an address its name among functions that are sorted by value. Each comes with the highest
/// address that one up to it covers.
pub(crate) fn named(functions: &[Function], ends: &[u64], address: u64) -> Option<Function>
    requires ordered { IsNonDecreasingBy (λ f. f.value) functions.now }
    requires reach { ends.now ≡ greatest_ends 0 functions.now }
    ensures { result ≡ spec.named address functions.now }
{
    let count = functions.partition_point(|function| function.value <= address);
    named_among(functions, ends, count, address)
}
