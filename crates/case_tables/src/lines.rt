// The cases of an archive as lines of JSON.
ghost use Rattle.std.specs.Prelude.{◌≡◌, OnOk, map};
ghost use Rattle.std.specs.List.{flat_map};
ghost use Rattle.journal_layout.specs.Case.{case_of};
ghost use Rattle.script_streams.specs.Replies.{PrintsText, printing};
ghost use Rattle.case_tables.specs.Lines.{case_line};

use crate::hidden::json_text;
use crate::objects::case_value;
use journal_layout::Entry;
use script_streams::{Output, Reply};
use std::alloc::{AllocError, Global};

// Prints a line for each case. If memory runs out it ends: the lines of the cases before are printed.
pub(crate) fn print_case_lines<O: Output>(
    alloc: Global,
    reply: &mut Reply<'_, O>,
    cases: &[&Entry],
) -> Result<(), AllocError>
    ensures { OnOk result (PrintsText (printing O.Output reply.old reply.new) (flat_map case_line (map (λ e. case_of e.now) cases.now))) }
{
    for case in cases {
        print_case_line(alloc, reply, case)?;
    }
    Ok(())
}

// Prints the object of a case, with no space between its parts and no line break within them, and then a line break.
fn print_case_line<O: Output>(
    alloc: Global,
    reply: &mut Reply<'_, O>,
    case: &Entry,
) -> Result<(), AllocError>
    ensures { OnOk result (PrintsText (printing O.Output reply.old reply.new) (case_line (case_of case.now))) }
{
    let value = case_value(alloc, case)?;
    let text = json_text(alloc, &value)?;
    reply.print(text.as_bytes());
    reply.print(b"\n");
    Ok(())
}
