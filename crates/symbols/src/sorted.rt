// The functions of a table sorted by value, each with the highest address that one up to it covers.
ghost use Rattle.std.specs.Prelude.{◌≡◌, IfOk};
ghost use Rattle.std.specs.List.Sorted.{IsNonDecreasingBy, IsPermutation};
ghost use Rattle.symbols.specs.Entry as entry;
ghost use Rattle.symbols.specs.Reach as reach;

use crate::functions::{Function, Functions};
use std::alloc::{AllocError, Global};

/// The functions of a symbol table, in its order.
pub(crate) fn collect(alloc: Global, entries: &[u8]) -> Result<Vec<Function>, AllocError>
    ensures { IfOk result (λ v. v.items ≡ entry.functions_of entries.now) }
{
    let mut all = Vec::new(alloc);
    let mut functions = Functions::new(entries);
    while let Some(function) = functions.next() {
        all.push(function)?;
    }
    Ok(all)
}

/// The functions of a symbol table, sorted by value.
pub(crate) fn sorted(alloc: Global, entries: &[u8]) -> Result<Vec<Function>, AllocError>
    ensures whole { IfOk result (λ v. IsPermutation (entry.functions_of entries.now) v.items) }
    ensures ordered { IfOk result (λ v. IsNonDecreasingBy (λ f. f.value) v.items) }
{
    let mut functions = collect(alloc, entries)?;
    functions.sort_unstable_by_key(|function| function.value);
    Ok(functions)
}

/// The last address that a function covers, 2^64 - 1 if it passes that.
fn last_of(function: Function) -> u64
    ensures { result ≡ reach.last_of function }
{
    function
        .value
        .saturating_add(function.size.saturating_sub(1))
}

/// For each function the highest last address among it and those before it.
pub(crate) fn greatest_ends(alloc: Global, functions: &[Function]) -> Result<Vec<u64>, AllocError>
    ensures { IfOk result (λ v. v.items ≡ reach.greatest_ends 0 functions.now) }
{
    let mut ends = Vec::new(alloc);
    let mut greatest = 0;
    for function in functions {
        greatest = last_of(*function).max(greatest);
        ends.push(greatest)?;
    }
    Ok(ends)
}
