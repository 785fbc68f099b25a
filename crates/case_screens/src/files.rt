// The files that a core had mapped, and which of them are stored.
ghost use Rattle.std.specs.Prelude.{◌≡◌, ◌++◌, length, map, option_map, take};
ghost use Rattle.address_space.specs.SpaceWords.{attached_view};
ghost use Rattle.build_replies.specs.Mapped.{build_view};
ghost use Rattle.image_replies.specs.Lines.{numbered_lines};
ghost use Rattle.journal_layout.specs.Case.{case_of};
ghost use Rattle.script_streams.specs.Replies.{PrintsText, printing};
ghost use Rattle.case_screens.specs.Core.{notes_read};
ghost use Rattle.case_screens.specs.Files.{debug_text, exec_number, exec_text, file_row, files_text, has_build, number_text, other_text, store_text, stored_number, stored_text, used_text};
ghost use Rattle.case_screens.specs.Texts.{margin, rest_after};

use crate::quotes::print_quoted;
use crate::reason::{core_reason, missing};
use crate::texts::{MARGIN, print_label, print_name, print_refused, print_rest_after, room_after};
use address_space::Attached;
use build_ids::has_name;
use build_replies::{BuildAnswer, ChosenFile};
use case_tables::{case_of_name, print_spaces};
use image_replies::{CoreFault, CoreImage};
use journal_layout::{Entry, Kind};
use script_streams::{Output, Reply};

// How many files are shown at most.
const MOST: usize = 256;

// The longest name of a case, in bytes.
const CASE_NAME: usize = 128;

// Prints the files that a core had mapped, at most 256, or why they are not shown.
pub(crate) fn print_files<O: Output>(
    reply: &mut Reply<'_, O>,
    cases: &[Entry],
    core: &Result<CoreImage<'_>, CoreFault>,
    builds: Option<&[BuildAnswer<'_>]>,
)
    ensures { PrintsText (printing O.Output reply.old reply.new) (files_text (map case_of cases.now) (notes_read core.now) (option_map (λ rows. rows.now) builds.entry)) }
{
    match (core, builds) {
        (Err(fault), _) => print_refused(reply, b"files     ", &core_reason(*fault)),
        (Ok(_), Some(rows)) => print_first(reply, cases, rows),
        (Ok(_), None) => print_refused(reply, b"files     ", &missing()),
    }
}

fn print_first<O: Output>(reply: &mut Reply<'_, O>, cases: &[Entry], rows: &[BuildAnswer<'_>])
    ensures { PrintsText (printing O.Output reply.old reply.new) (numbered_lines (file_row (map case_of cases.now)) 0 (take 256 rows.now) ++ rest_after margin 256 (length rows.now)) }
{
    let (first, _) = rows.split_at(rows.len().min(MOST));
    print_rows(reply, cases, first);
    print_rest_after(reply, MARGIN, MOST, rows.len());
}

fn print_rows<O: Output>(reply: &mut Reply<'_, O>, cases: &[Entry], rows: &[BuildAnswer<'_>])
    ensures { PrintsText (printing O.Output reply.old reply.new) (numbered_lines (file_row (map case_of cases.now)) 0 rows.now) }
{
    for (row, file) in rows.iter().enumerate() {
        print_row(reply, cases, row, file);
    }
}

fn print_row<O: Output>(
    reply: &mut Reply<'_, O>,
    cases: &[Entry],
    row: usize,
    file: &BuildAnswer<'_>,
)
    ensures { PrintsText (printing O.Output reply.old reply.new) (file_row (map case_of cases.now) row file.now) }
{
    let name = file.front.name;
    print_label(reply, b"files     ", row);
    print_name(reply, name);
    print_spaces(reply, room_after(34, name, 0));
    reply.print(b"  ");
    print_stored(reply, cases, file);
    reply.print(b"\n");
}

// Prints which stored files a mapped file has.
fn print_stored<O: Output>(reply: &mut Reply<'_, O>, cases: &[Entry], file: &BuildAnswer<'_>)
    ensures { PrintsText (printing O.Output reply.old reply.new) (stored_text (map case_of cases.now) (build_view file.now)) }
{
    match file.chosen {
        ChosenFile::ByBuild(executable) => {
            print_used(
                reply,
                stored_number(cases, executable.path),
                cases,
                file.debug,
            );
        }
        ChosenFile::ByPath(executable) => {
            print_used(
                reply,
                stored_number(cases, executable.path),
                cases,
                file.debug,
            );
        }
        ChosenFile::Other(executable) => {
            print_other(reply, stored_number(cases, executable.path));
        }
        ChosenFile::Nothing => {
            print_store_text(reply, has_build(file.front.id()), file.front.name);
        }
    }
}

// Prints the number of a case, if it is there.
fn print_number<O: Output>(reply: &mut Reply<'_, O>, number: Option<u32>)
    ensures { PrintsText (printing O.Output reply.old reply.new) (number_text number) }
{
    match number {
        Some(number) => reply.print_decimal(u128::from(number)),
        None => reply.print(b"?"),
    }
}

// Prints the case with the debug file, if there is one.
fn print_debug<O: Output>(reply: &mut Reply<'_, O>, cases: &[Entry], debug: Option<Attached<'_>>)
    ensures { PrintsText (printing O.Output reply.old reply.new) (debug_text (map case_of cases.now) (option_map attached_view debug.entry)) }
{
    if let Some(debug) = debug {
        reply.print(b", debug file case ");
        print_number(reply, stored_number(cases, debug.path));
    }
}

// Prints the case whose executable is used, and that with its debug file.
fn print_used<O: Output>(
    reply: &mut Reply<'_, O>,
    number: Option<u32>,
    cases: &[Entry],
    debug: Option<Attached<'_>>,
)
    ensures { PrintsText (printing O.Output reply.old reply.new) (used_text number (map case_of cases.now) (option_map attached_view debug.entry)) }
{
    reply.print(b"stored as case ");
    print_number(reply, number);
    print_debug(reply, cases, debug);
}

// Prints the case whose executable is not used, since it has another build.
fn print_other<O: Output>(reply: &mut Reply<'_, O>, number: Option<u32>)
    ensures { PrintsText (printing O.Output reply.old reply.new) (other_text number) }
{
    reply.print(b"not stored, case ");
    print_number(reply, number);
    reply.print(b" is of another build: corekeep store ARCHIVE FILE --build");
}

// Whether a case can be named by the build that a core has for a file.
fn has_build(core: Option<&[u8]>) -> bool
    ensures { result ≡ has_build (option_map (λ id. id.now) core.entry) }
{
    match core {
        Some(id) => has_name(id),
        None => false,
    }
}

// Prints the command that stores a file: by its build, if it can be named so, or under its name.
fn print_store_text<O: Output>(reply: &mut Reply<'_, O>, has_id: bool, name: &[u8])
    ensures { PrintsText (printing O.Output reply.old reply.new) (store_text has_id name.now) }
{
    if has_id {
        reply.print(b"not stored: corekeep store ARCHIVE FILE --build");
    } else {
        print_exec_text(reply, name);
    }
}

// Prints the command that stores a file under its name, if a case can have that name.
fn print_exec_text<O: Output>(reply: &mut Reply<'_, O>, name: &[u8])
    ensures { PrintsText (printing O.Output reply.old reply.new) (exec_text name.now) }
{
    if name.len() > CASE_NAME {
        reply.print(b"not stored: its name has over 128 bytes");
    } else {
        reply.print(b"not stored: corekeep store ARCHIVE FILE --exec ");
        print_quoted(reply, name);
    }
}

/// The number of the executable that is stored under a name.
pub fn stored_number(cases: &[Entry], name: &[u8]) -> Option<u32>
    ensures { result ≡ stored_number (map case_of cases.now) name.now }
{
    exec_number(case_of_name(cases, name))
}

// The number of a case, if it is an executable.
fn exec_number(case: Option<&Entry>) -> Option<u32>
    ensures { result ≡ exec_number (option_map (λ e. case_of e.now) case.entry) }
{
    let case = case?;
    match case.kind {
        Kind::Core => None,
        Kind::Exec => Some(case.seq),
    }
}
