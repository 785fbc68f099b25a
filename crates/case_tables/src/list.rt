// A list of the cases that are wanted.
ghost use Rattle.std.specs.Prelude.{◌≡◌, ◌==◌, IfOk, List, length, map, not, string_bytes};
ghost use Rattle.std.specs.List.{flat_map};
ghost use Rattle.journal_layout.specs.Case.{Case, case_of};
ghost use Rattle.script_streams.specs.Replies.{PrintsText, printing};
ghost use Rattle.case_tables.specs.Hidden.{Prints};
ghost use Rattle.case_tables.specs.Json.{cases_json};
ghost use Rattle.case_tables.specs.Lines.{case_line};
ghost use Rattle.case_tables.specs.Order.{IsShown};
ghost use Rattle.case_tables.specs.Table.{list_table};
ghost use Rattle.case_tables.specs.Wanted.{chosen};

use crate::lines::print_case_lines;
use crate::objects::json_of;
use crate::table::print_table;
use crate::wanted::{Wanted, shown_of};
use journal_layout::Entry;
use script_streams::{Output, Reply};
use std::alloc::{AllocError, Global};

/// Prints the cases that are wanted as a table. Returns whether there are any.
///
/// # Errors
///
/// There is no memory: nothing is printed.
pub fn print_list<O: Output>(
    alloc: Global,
    reply: &mut Reply<'_, O>,
    cases: &[Entry],
    wanted: &Wanted<'_>,
) -> Result<bool, AllocError>
    ensures is_table { IfOk result (λ some. (shown : List Case) × IsShown wanted.now.order (chosen wanted.now (map case_of cases.now)) shown
        × PrintsText (printing O.Output reply.old reply.new) (list_table wanted.now.zone shown)) }
    ensures some { IfOk result (λ some. some ≡ not (length (chosen wanted.now (map case_of cases.now)) == 0)) }
{
    let shown = shown_of(alloc, cases, wanted)?;
    print_table(reply, wanted.zone, &shown);
    Ok(!shown.is_empty())
}

/// Prints a line of JSON for each case that is wanted: its object, and nothing else. Returns whether there are any.
///
/// # Errors
///
/// There is no memory: the lines of some cases may be printed.
pub fn print_list_lines<O: Output>(
    alloc: Global,
    reply: &mut Reply<'_, O>,
    cases: &[Entry],
    wanted: &Wanted<'_>,
) -> Result<bool, AllocError>
    ensures are_lines { IfOk result (λ some. (shown : List Case) × IsShown wanted.now.order (chosen wanted.now (map case_of cases.now)) shown
        × PrintsText (printing O.Output reply.old reply.new) (flat_map case_line shown)) }
    ensures some { IfOk result (λ some. some ≡ not (length (chosen wanted.now (map case_of cases.now)) == 0)) }
{
    let shown = shown_of(alloc, cases, wanted)?;
    print_case_lines(alloc, reply, &shown)?;
    Ok(!shown.is_empty())
}

/// The cases that are wanted as a JSON array of objects, as it is printed, and whether there are any.
///
/// # Errors
///
/// There is no memory.
pub fn list_json(
    alloc: Global,
    cases: &[Entry],
    wanted: &Wanted<'_>,
) -> Result<(String, bool), AllocError>
    ensures is_json { IfOk result (λ list. (shown : List Case) × IsShown wanted.now.order (chosen wanted.now (map case_of cases.now)) shown
        × Prints (cases_json shown) (string_bytes list.0)) }
    ensures some { IfOk result (λ list. list.1 ≡ not (length (chosen wanted.now (map case_of cases.now)) == 0)) }
{
    let shown = shown_of(alloc, cases, wanted)?;
    let text = json_of(alloc, &shown)?;
    Ok((text, !shown.is_empty()))
}
