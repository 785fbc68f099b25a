// The cores that wait in the spool are stored.
ghost use Rattle.std.specs.Prelude.{◌≡◌, None, IfSome};

use crate::handling::{HandleWords, Handler};
use crate::line_numbers::number_in_line;
use crate::log::Level;
use crate::notes::Notes;
use crate::outcome_lines::words_of;
use crate::spool_paths::SpoolPaths;
use crate::spool_store::{print_unremoved, settle_files, store_kept};
use crate::twin::{Twin, twin_of};
use archive_files::{ArchivePath, Collected, Failure, StoreRequest, open_looked};
use command_words::Context;
use diagnostics::Onlooker;
use handler_files::{
    CoreFiles, Entry, Outcome, Spooled, Stage, entries_in, oldest_first, read_words, settle_words,
};
use script_streams::{Output, Reply};
use std::alloc::Global;
use std::fs;
use std::fs::File;
use std::rt::Files;
use std::time::Clock;
use whole_files::is_named;

// The texts after the names of cores that were cut on their way, and of those whose name a case has.
const ENDS: usize = 9;

static WHOLE_ENDS: [&'static str; 9] = ["", "~2", "~3", "~4", "~5", "~6", "~7", "~8", "~9"];

static CUT_ENDS: [&'static str; 9] = [
    ".cut", ".cut~2", ".cut~3", ".cut~4", ".cut~5", ".cut~6", ".cut~7", ".cut~8", ".cut~9",
];

// A core that waits in the spool, and whose lock is had.
#[derive(Clone, Copy)]
struct Waiting<'w> {
    place: ArchivePath<'w>,
    paths: &'w SpoolPaths,
    stage: Stage,
    file: &'w File,
}

// Stores each core that waits in the spool, the oldest first, but those that another process has. Then words whose cores are gone are removed.
pub(crate) fn flush<
    R: AllocGlobal + Files<File = File> + Clock + Clone + Drop,
    O: Output,
    W: Onlooker,
>(
    rt: &R,
    handler: &Handler<'_>,
    place: ArchivePath<'_>,
    output: &mut O,
    onlooker: &mut W,
) -> Result<(), Failure> {
    let Some(folder) = handler.config.spool else {
        return refuse(output, b"fault spool: none is set\n");
    };
    let Ok(found) = entries_in(rt, folder) else {
        return refuse(output, b"fault spool: the directory can't be read\n");
    };
    let mut cores = found.cores;
    oldest_first(&mut cores);
    let mut are_stored = true;
    for core in &cores {
        let is_stored = flush_entry(rt, handler, place, folder, *core, output, onlooker);
        are_stored = are_stored && is_stored;
    }
    remove_lone_words(rt, handler, folder, &found.words);
    if are_stored {
        Ok(())
    } else {
        refuse(
            output,
            b"fault spool: cores of it were not stored: the log says why\n",
        )
    }
}

// Removes words whose cores are gone.
fn remove_lone_words<R: AllocGlobal + Files<File = File>>(
    rt: &R,
    handler: &Handler<'_>,
    folder: &str,
    words: &[Entry],
) {
    for entry in words {
        remove_if_lone(rt, handler, folder, *entry);
    }
}

// Removes words, if their core is gone. They were seen before their core is looked for: so it is not still to come.
fn remove_if_lone<R: AllocGlobal + Files<File = File>>(
    rt: &R,
    handler: &Handler<'_>,
    folder: &str,
    entry: Entry,
) {
    let Ok(paths) = SpoolPaths::of(rt.alloc(), folder, entry.name) else {
        return;
    };
    let names = paths.with_words(entry.stage);
    let mut files = CoreFiles::new(rt, names, Stage::Whole);
    if !files.is_core_gone() {
        // Its owner may be about to take the lock of the words.
        return;
    }
    let Some(_locked) = lock_of(rt, names.words) else {
        return;
    };
    if settle_words(&mut files).is_err() {
        print_unremoved(rt, handler, names.words);
    }
}

// Prints why not all is stored.
fn refuse<O: Output>(output: &mut O, why: &[u8]) -> Result<(), Failure> {
    let mut reply = Reply::new(output);
    reply.print(why);
    reply.finish()?;
    Err(Failure::Told)
}

// Stores a core, unless another process has it. Returns whether no core is left.
fn flush_entry<R: AllocGlobal + Files<File = File> + Clock, O: Output, W: Onlooker>(
    rt: &R,
    handler: &Handler<'_>,
    place: ArchivePath<'_>,
    folder: &str,
    entry: Entry,
    output: &mut O,
    onlooker: &mut W,
) -> bool {
    let Ok(paths) = SpoolPaths::of(rt.alloc(), folder, entry.name) else {
        return false;
    };
    let stage = entry.stage;
    if stage == Stage::Part && fs::symlink_metadata(rt, paths.core.as_str()).is_ok() {
        // It is whole, and was stopped between its two names.
        return true;
    }
    let Some(file) = core_of(rt, &paths, stage) else {
        return true;
    };
    let words = words_in(rt, paths.words.as_str());
    if stage == Stage::Part && words.is_none() {
        // Nothing was read of it: its words come first.
        settle_files(rt, handler, &paths, stage, Outcome::Short);
        return true;
    }
    let waiting = Waiting {
        place,
        paths: &paths,
        stage,
        file: &file,
    };
    let Some(words) = words.or(no_words(rt.alloc())) else {
        return false;
    };
    let words = words_at(stage, words);
    flush_core(rt, handler, &waiting, &words, output, onlooker) == Outcome::Stored
}

// The words of a core at this stage. One that was cut on its way has not the length that was stated: it is stored as it came.
fn words_at(stage: Stage, words: HandleWords<'static>) -> HandleWords<'static>
    ensures cut { stage ≡ Stage.Part → result ≡ record words.entry { length = None } }
    ensures whole { stage ≡ Stage.Whole → result ≡ words.entry }
{
    match stage {
        Stage::Part => HandleWords {
            length: None,
            ..words
        },
        Stage::Whole => words,
    }
}

// The file of a core, with its lock. A whole one loses the name that it had before, if a stop left it: else it could be taken for a cut one as
// well.
fn core_of<R: Files<File = File>>(rt: &R, paths: &SpoolPaths, stage: Stage) -> Option<File> {
    let file = lock_of(rt, paths.at(stage))?;
    let part = paths.part.as_str();
    if stage == Stage::Whole && matches!(is_named(rt, part, &file), Ok(true)) {
        let _ = fs::remove_file(rt, part);
    }
    Some(file)
}

// The file under a path, with its lock; nothing if another process has it, or has removed it.
fn lock_of<R: Files<File = File>>(rt: &R, path: &str) -> Option<File> {
    let looked = fs::symlink_metadata(rt, path).ok()?;
    if !looked.is_file() {
        return None;
    }
    let file = open_looked(rt, path, &looked).ok()?;
    if file.try_lock().is_err() {
        return None;
    }
    match is_named(rt, path, &file) {
        Ok(true) => Some(file),
        _ => None,
    }
}

// The words that a file keeps, as those of `handle`.
fn words_in<R: AllocGlobal + Files<File = File>>(
    rt: &R,
    path: &str,
) -> Option<HandleWords<'static>> {
    let text = fs::read(rt, path).ok()?;
    let (line, length) = read_words(&text)?;
    spooled_words(rt.alloc(), line, length)
}

// The words of a core of which none are known.
fn no_words(alloc: Global) -> Option<HandleWords<'static>> {
    spooled_words(alloc, b"begin core 0", None)
}

fn spooled_words(alloc: Global, line: &[u8], length: Option<u64>) -> Option<HandleWords<'static>>
    ensures begin { IfSome result (λ words. words.begin.items ≡ line.now) }
    ensures length { IfSome result (λ words. words.length ≡ length) }
{
    Some(HandleWords {
        config: None,
        archive: None,
        begin: line.to_vec(alloc).ok()?,
        left_out: Vec::new(alloc),
        length,
        faulty_length: None,
        stall: None,
        faulty_stall: None,
        core_limit: None,
        mode: number_in_line(line, b"mode="),
        is_check: false,
        is_flush: true,
    })
}

// Stores a core under the first of its names that no other case has. If a case has its name and its bytes, it is stored already.
fn flush_core<R: AllocGlobal + Files<File = File> + Clock, O: Output, W: Onlooker>(
    rt: &R,
    handler: &Handler<'_>,
    waiting: &Waiting<'_>,
    words: &HandleWords<'_>,
    output: &mut O,
    onlooker: &mut W,
) -> Outcome {
    let handler = handler.with_mode(words.mode);
    if let Some(outcome) = try_names(rt, &handler, waiting, words, output, onlooker) {
        return outcome;
    }
    let waits = handler.waiting();
    let meaning = words_of(rt.alloc(), Context::Handling, None, b"NameTaken", None);
    waits.print_lost(rt, words, waiting.place.path, b"NameTaken", meaning.text());
    Outcome::NameTaken
}

// Stores a core under its name with the first of these ends that no other case has.
fn try_names<R: AllocGlobal + Files<File = File> + Clock, O: Output, W: Onlooker>(
    rt: &R,
    handler: &Handler<'_>,
    waiting: &Waiting<'_>,
    words: &HandleWords<'_>,
    output: &mut O,
    onlooker: &mut W,
) -> Option<Outcome> {
    for index in 0..ENDS {
        let end = end_at(waiting.stage, index);
        let tried = try_name(rt, handler, waiting, words, end, output, onlooker);
        if tried.is_some() {
            return tried;
        }
    }
    None
}

// The text after the name of a core at the try of this number, from 0 on.
fn end_at(stage: Stage, index: usize) -> &'static str {
    let end = match stage {
        Stage::Part => CUT_ENDS.get(index),
        Stage::Whole => WHOLE_ENDS.get(index),
    };
    end.copied().unwrap_or("")
}

// Stores a core under its name with this end, unless another case has that name.
fn try_name<R: AllocGlobal + Files<File = File> + Clock, O: Output, W: Onlooker>(
    rt: &R,
    handler: &Handler<'_>,
    waiting: &Waiting<'_>,
    words: &HandleWords<'_>,
    end: &str,
    output: &mut O,
    onlooker: &mut W,
) -> Option<Outcome> {
    let Ok(request) = handler.request_ended(rt, words, end) else {
        return Some(Outcome::OutOfMemory);
    };
    let name = request.printed_name(rt.alloc());
    match twin_of(
        rt,
        waiting.place,
        name.text(),
        waiting.file,
        bytes_of(waiting.file),
    ) {
        Twin::Other => None,
        Twin::Same => {
            print_same(rt, handler, waiting, name.text());
            settle_files(rt, handler, waiting.paths, waiting.stage, Outcome::Stored);
            Some(Outcome::Stored)
        }
        Twin::None => Some(store_waiting(rt, handler, waiting, request, output, onlooker)),
    }
}

fn store_waiting<R: AllocGlobal + Files<File = File> + Clock, O: Output, W: Onlooker>(
    rt: &R,
    handler: &Handler<'_>,
    waiting: &Waiting<'_>,
    request: StoreRequest,
    output: &mut O,
    onlooker: &mut W,
) -> Outcome {
    let mut notes = Notes::new(rt.alloc());
    let (_, outcome) = store_kept(
        rt,
        handler,
        waiting.place,
        request,
        waiting.paths,
        waiting.stage,
        output,
        &mut notes,
        onlooker,
    );
    outcome
}

fn bytes_of(file: &File) -> u64 {
    match file.metadata() {
        Ok(about) => about.len(),
        Err(_) => 0,
    }
}

// Logs that a core is stored already.
fn print_same<R: AllocGlobal + Files<File = File>>(
    rt: &R,
    handler: &Handler<'_>,
    waiting: &Waiting<'_>,
    name: &[u8],
) {
    let mut line = Collected::new(rt.alloc());
    let mut reply = Reply::new(&mut line);
    reply.print(b"was stored before: ");
    reply.print(name);
    reply.print(b" in ");
    reply.print_text(waiting.place.path.as_bytes());
    let _ = reply.finish();
    handler.print(rt, Level::Info, line.text());
}
