// Which cases are used for a core's mapped files.
ghost use Rattle.std.specs.Prelude.{◌≡◌, find, map};
ghost use Rattle.std.specs.List.{flat_map};
ghost use Rattle.std.specs.Option.{option_map};
ghost use Rattle.std.specs.Str.{bytes_eq};
ghost use Rattle.address_space.specs.SpaceWords.{attached_view};
ghost use Rattle.script_streams.specs.Replies.{PrintsText, printing};
ghost use Rattle.build_replies.specs.Builds as spec;
ghost use Rattle.build_replies.specs.BuildsWords.{numbered_view};
ghost use Rattle.build_replies.specs.ChoosingWords.{chosen_view};
ghost use Rattle.build_replies.specs.Mapped.{build_view};

use crate::answers::BuildAnswer;
use crate::choosing::ChosenFile;
use address_space::Attached;
use script_streams::{Output, Reply};

/// A case, by its number and its name.
#[derive(Clone, Copy)]
pub struct NumberedCase<'n> {
    /// Its number.
    pub number: u32,
    /// Its name.
    pub name: &'n [u8],
}

/// The case of that name.
fn case_named<'c, 'n>(cases: &'c [NumberedCase<'n>], name: &[u8]) -> Option<&'c NumberedCase<'n>>
    ensures { option_map (λ (c : _). c.now) result ≡ find (λ c. bytes_eq c.name.now name.now) cases.now }
{
    cases.iter().find(|case| case.name == name)
}

/// Its number.
fn number_named(cases: &[NumberedCase<'_>], name: &[u8]) -> Option<u32>
    ensures { result ≡ spec.number_named (map numbered_view cases.now) name.now }
{
    match case_named(cases, name) {
        Some(case) => Some(case.number),
        None => None,
    }
}

/// The number of the case as which a file is stored.
fn case_of_file(cases: &[NumberedCase<'_>], file: Option<Attached<'_>>) -> Option<u32>
    ensures { result ≡ spec.case_of_file (map numbered_view cases.now) (option_map attached_view file.entry) }
{
    number_named(cases, file?.path)
}

/// The number of the case whose executable is used.
fn case_used(cases: &[NumberedCase<'_>], chosen: ChosenFile<'_>) -> Option<u32>
    ensures { result ≡ spec.case_used (map numbered_view cases.now) (chosen_view chosen.entry) }
{
    case_of_file(cases, chosen.used())
}

/// Prints a number, or `-`.
fn print_number<O: Output>(reply: &mut Reply<'_, O>, number: Option<u32>)
    ensures { PrintsText (printing O.Output reply.old reply.new) (spec.number_word number) }
{
    match number {
        Some(number) => reply.print_decimal(u128::from(number)),
        None => reply.print(b"-"),
    }
}

/// Prints the line of a name.
#[tactic(auto, unfolding(crate::specs::Builds::used_line))]
fn print_line<O: Output>(
    reply: &mut Reply<'_, O>,
    cases: &[NumberedCase<'_>],
    row: &BuildAnswer<'_>,
)
    ensures { PrintsText (printing O.Output reply.old reply.new) (spec.used_line (map numbered_view cases.now) (build_view row.now)) }
{
    reply.print_text(row.front.name);
    reply.print(b" ");
    print_number(reply, case_used(cases, row.chosen));
    reply.print(b" ");
    reply.print(row.chosen.how());
    reply.print(b" ");
    print_number(reply, case_of_file(cases, row.debug));
    reply.print(b"\n");
}

/// Prints a line for each name.
pub(crate) fn print_used<O: Output>(
    reply: &mut Reply<'_, O>,
    cases: &[NumberedCase<'_>],
    rows: &[BuildAnswer<'_>],
)
    ensures { PrintsText (printing O.Output reply.old reply.new) (flat_map (spec.used_line (map numbered_view cases.now)) (map build_view rows.now)) }
{
    for row in rows {
        print_line(reply, cases, row);
    }
}
