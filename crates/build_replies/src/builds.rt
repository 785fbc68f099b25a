// The replies to `builds`, `used` and `wants`.
ghost use Rattle.std.specs.Prelude.{◌≡◌, ℕ, List, Some, map};
ghost use Rattle.std.specs.List.{flat_map};
ghost use Rattle.std.specs.Option.{option_map};
ghost use Rattle.script_streams.specs.Replies.{PrintsReply, PrintsText, printing};
ghost use Rattle.address_space.specs.SpaceWords.{attached_view};
ghost use Rattle.address_space.specs.Source.{ExecutableView};
ghost use Rattle.image_replies.specs.CoreWords.{core_bytes};
ghost use Rattle.memory_replies.specs.Answers.{AnswersWith};
ghost use Rattle.build_replies.specs.Builds as spec;
ghost use Rattle.build_replies.specs.Builds.{told_of};
ghost use Rattle.build_replies.specs.BuildsWords.{asking_view, numbered_view, wanted_view};
ghost use Rattle.build_replies.specs.Mapped.{build_view, told_view};

use crate::answers::{BuildAnswer, build_answers};
use crate::ids::{FrontId, told_ids};
use crate::used::{NumberedCase, print_used};
use crate::wanted::{WantedBuild, wanted_builds};
use address_space::Attached;
use image_replies::CoreImage;
use memory_replies::Outcome;
use script_streams::{Output, Reply, print_no, print_ok};
use std::alloc::Global;

/// A line's question about a core's mapped files.
#[derive(Clone, Copy)]
pub enum BuildsAsked<'c> {
    /// `NAME CORE STORED VERDICT` for each. CORE is the build ID of the front of the file, as far as
    /// the core has it. STORED is that of the executable that is stored for the file, used or not.
    /// Each is `-` if there is none. VERDICT is `unknown` if one is missing, else `same` or `differs`.
    Compared,
    /// `NAME CASE HOW DEBUG` for each. CASE is the number of the case whose executable is used for the file, among these, or `-`. HOW is
    /// `build`, `path`, `other` or `none`. DEBUG is the number of the case with its debug file, or `-`.
    Used(&'c [NumberedCase<'c>]),
    /// `NAME ID` for each build that is wanted: the core gives its ID for a file, an executable can be stored by it, and none is used for
    /// the file. If several files have one build, the first is named.
    Wanted,
}

/// Prints an ID, or `-` if there is no ID.
fn print_id<O: Output>(reply: &mut Reply<'_, O>, id: Option<&[u8]>)
    ensures { PrintsText (printing O.Output reply.old reply.new) (spec.id_word (option_map (λ id. id.now) id.entry)) }
{
    match id {
        Some(id) => reply.print_hex(id),
        None => reply.print(b"-"),
    }
}

/// The result of comparing two build IDs: `unknown` if one is missing, else `same` or `differs`.
pub fn verdict(core: Option<&[u8]>, stored: Option<&[u8]>) -> &'static [u8]
    ensures { result.now ≡ spec.verdict (option_map (λ id. id.now) core.entry) (option_map (λ id. id.now) stored.entry) }
{
    match (core, stored) {
        (Some(core), Some(stored)) if core == stored => b"same",
        (Some(_), Some(_)) => b"differs",
        _ => b"unknown",
    }
}

/// Prints two IDs and the result of comparing them.
fn print_ids<O: Output>(reply: &mut Reply<'_, O>, core: Option<&[u8]>, stored: Option<&[u8]>)
    ensures { PrintsText (printing O.Output reply.old reply.new)
        (spec.ids_words (option_map (λ id. id.now) core.entry) (option_map (λ id. id.now) stored.entry)) }
{
    print_id(reply, core);
    reply.print(b" ");
    print_id(reply, stored);
    reply.print(b" ");
    reply.print(verdict(core, stored));
}

/// Prints the line of a name.
#[tactic(auto, unfolding(crate::specs::Builds::build_line))]
fn print_line<O: Output>(reply: &mut Reply<'_, O>, row: &BuildAnswer<'_>)
    ensures { PrintsText (printing O.Output reply.old reply.new) (spec.build_line (build_view row.now)) }
{
    reply.print_text(row.front.name);
    reply.print(b" ");
    print_ids(reply, row.front.id(), row.chosen.id());
    reply.print(b"\n");
}

/// Prints a line for each name.
fn print_lines<O: Output>(reply: &mut Reply<'_, O>, rows: &[BuildAnswer<'_>])
    ensures { PrintsText (printing O.Output reply.old reply.new) (flat_map spec.build_line (map build_view rows.now)) }
{
    for row in rows {
        print_line(reply, row);
    }
}

/// Prints the line of a build that is wanted.
#[tactic(auto, unfolding(crate::specs::Builds::wants_line))]
fn print_wanted<O: Output>(reply: &mut Reply<'_, O>, wanted: &WantedBuild<'_>)
    ensures { PrintsText (printing O.Output reply.old reply.new) (spec.wants_line (wanted_view wanted.now)) }
{
    reply.print_text(wanted.name);
    reply.print(b" ");
    reply.print_hex(wanted.id);
    reply.print(b"\n");
}

/// Prints a line for each of them.
fn print_each<O: Output>(reply: &mut Reply<'_, O>, wanted: &[WantedBuild<'_>])
    ensures { PrintsText (printing O.Output reply.old reply.new) (flat_map spec.wants_line (map wanted_view wanted.now)) }
{
    for build in wanted {
        print_wanted(reply, build);
    }
}

/// Prints that there is no memory for the answer.
fn print_no_memory<O: Output>(reply: &mut Reply<'_, O>) -> Outcome
    ensures { (answer : _) → PrintsReply (printing O.Output reply.old reply.new) (AnswersWith result answer) }
{
    print_no(reply, b"OutOfMemory");
    Outcome::OutOfMemory
}

/// Prints the reply for a core, from the answers for its mapped files. Returns the outcome.
fn print_rows<O: Output>(
    alloc: Global,
    reply: &mut Reply<'_, O>,
    rows: &[BuildAnswer<'_>],
    asked: BuildsAsked<'_>,
) -> Outcome
    ensures { (image : List ℕ) (xs : List ExecutableView) → spec.builds_of image xs ≡ Some (map build_view rows.now)
        → PrintsReply (printing O.Output reply.old reply.new) (AnswersWith result (spec.builds_answer (asking_view asked.entry) image xs)) }
{
    match asked {
        BuildsAsked::Compared => {
            print_lines(reply, rows);
            print_ok(reply);
            Outcome::Done
        }
        BuildsAsked::Used(cases) => {
            print_used(reply, cases, rows);
            print_ok(reply);
            Outcome::Done
        }
        BuildsAsked::Wanted => match wanted_builds(alloc, rows) {
            Ok(wanted) => {
                print_each(reply, &wanted);
                print_ok(reply);
                Outcome::Done
            }
            Err(_) => print_no_memory(reply),
        },
    }
}

/// Prints the answer to the question about a core with these mapped files, with the executables that are stored: a line for each name of
/// NT_FILE, at its first place. A core without NT_FILE is answered by `no Missing`. Returns the outcome.
pub fn print_told<O: Output>(
    alloc: Global,
    reply: &mut Reply<'_, O>,
    told: &Option<Vec<FrontId<'_>>>,
    stored: &[Attached<'_>],
    asked: BuildsAsked<'_>,
) -> Outcome
    ensures { (image : List ℕ) → told_of image ≡ told_view told.now
        → PrintsReply (printing O.Output reply.old reply.new) (AnswersWith result (spec.builds_answer (asking_view asked.entry) image (map attached_view stored.now))) }
{
    match build_answers(alloc, told, stored) {
        Ok(Some(rows)) => print_rows(alloc, reply, &rows, asked),
        Ok(None) => {
            print_no(reply, b"Missing");
            Outcome::Refused
        }
        Err(_) => print_no_memory(reply),
    }
}

/// The same of a core of which all bytes are at hand.
pub fn print_builds<O: Output>(
    alloc: Global,
    reply: &mut Reply<'_, O>,
    core: &CoreImage<'_>,
    stored: &[Attached<'_>],
    asked: BuildsAsked<'_>,
) -> Outcome
    ensures { PrintsReply (printing O.Output reply.old reply.new)
        (AnswersWith result (spec.builds_answer (asking_view asked.entry) (core_bytes core.now) (map attached_view stored.now))) }
{
    match told_ids(alloc, core) {
        Ok(told) => print_told(alloc, reply, &told, stored, asked),
        Err(_) => print_no_memory(reply),
    }
}
