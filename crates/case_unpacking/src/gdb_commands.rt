//! The commands by which a debugger opens the unpacked files.
ghost use Rattle.std.specs.Prelude.{◌≡◌, drop, take};
ghost use Rattle.std.specs.List.{list_any};
ghost use Rattle.std.specs.Option.{option_map};
ghost use Rattle.std.specs.Str.{bytes_eq};
ghost use Rattle.script_streams.specs.Replies.{PrintsText, printing};
ghost use Rattle.case_unpacking.specs.GdbCommands as spec;
ghost use Rattle.case_unpacking.specs.Names.{components};

use crate::places::Place;
use memchr::memrchr;
use script_streams::{Output, Reply};

/// The unpacked files, by the facts that a debugger needs.
#[derive(Clone, Copy)]
pub struct Unpacked<'p> {
    /// The place of the program, if it is there.
    pub program: Option<Place<'p>>,
    /// The places of the other executables.
    pub others: &'p [Place<'p>],
    /// A core is there, as `core`.
    pub has_core: bool,
    /// Debug files are there, in `debug`.
    pub has_debug: bool,
}

/// Prints the commands by which GDB opens the unpacked files. They are for a GDB that runs in their directory.
pub fn print_gdb<O: Output>(reply: &mut Reply<'_, O>, unpacked: &Unpacked<'_>)
    ensures { PrintsText (printing O.Output reply.old reply.new) (spec.gdb_text unpacked.now) }
{
    reply.print(b"set auto-load off\nset sysroot sysroot\n");
    print_folders(reply, b"set solib-search-path ", b":", unpacked.others);
    print_when(
        reply,
        unpacked.has_debug,
        b"set debug-file-directory debug\n",
    );
    print_program(reply, b"file ", unpacked.program, b"\n");
    print_when(reply, unpacked.has_core, b"core-file core\n");
}

/// Prints the commands by which LLDB opens the unpacked files. They are for an LLDB that runs in their directory.
pub fn print_lldb<O: Output>(reply: &mut Reply<'_, O>, unpacked: &Unpacked<'_>)
    ensures { PrintsText (printing O.Output reply.old reply.new) (spec.lldb_text unpacked.now) }
{
    print_folders(
        reply,
        b"settings set target.exec-search-paths ",
        b" ",
        unpacked.others,
    );
    reply.print(b"target create");
    print_program(reply, b" ", unpacked.program, b"");
    print_when(reply, unpacked.has_core, b" --core core");
    reply.print(b"\n");
}

fn print_when<O: Output>(reply: &mut Reply<'_, O>, is_so: bool, text: &[u8])
    ensures { PrintsText (printing O.Output reply.old reply.new) (spec.when is_so text.now) }
{
    if is_so {
        reply.print(text);
    }
}

fn print_program<O: Output>(
    reply: &mut Reply<'_, O>,
    front: &[u8],
    program: Option<Place<'_>>,
    end: &[u8],
)
    ensures { PrintsText (printing O.Output reply.old reply.new) (spec.with_program front.now end.now program.entry) }
{
    if let Some(place) = program {
        reply.print(front);
        place.print(reply);
        reply.print(end);
    }
}

// Prints a command with the directories of these places.
fn print_folders<O: Output>(
    reply: &mut Reply<'_, O>,
    command: &[u8],
    separator: &[u8],
    places: &[Place<'_>],
)
    ensures { PrintsText (printing O.Output reply.old reply.new) (spec.folders_line command.now separator.now places.now) }
{
    let Some(first) = places.first() else {
        return;
    };
    reply.print(command);
    print_folder(reply, *first);
    print_more(reply, separator, places);
    reply.print(b"\n");
}

// Prints the directories of the places after the first.
fn print_more<O: Output>(reply: &mut Reply<'_, O>, separator: &[u8], places: &[Place<'_>])
    ensures { PrintsText (printing O.Output reply.old reply.new) (spec.more_folders separator.now (take 1 places.now) (drop 1 places.now)) }
{
    for at in 1..places.len() {
        print_new(reply, separator, &places[..at], places[at]);
    }
}

// Prints the directory of a place, if none of those before is in it.
fn print_new<O: Output>(
    reply: &mut Reply<'_, O>,
    separator: &[u8],
    before: &[Place<'_>],
    place: Place<'_>,
)
    ensures { PrintsText (printing O.Output reply.old reply.new) (spec.new_folder separator.now before.now place.entry) }
{
    if !has_folder(before, place) {
        reply.print(separator);
        print_folder(reply, place);
    }
}

// Whether one of these places is in the directory of another.
fn has_folder(places: &[Place<'_>], other: Place<'_>) -> bool
    ensures { result ≡ list_any (λ p. bytes_eq (spec.folder_of p) (spec.folder_of other.entry)) places.now }
{
    places.iter().any(|place| have_one_folder(*place, other))
}

#[tactic(auto, using(crate::proofs::FolderLemmas::folder_is))]
fn print_folder<O: Output>(reply: &mut Reply<'_, O>, place: Place<'_>)
    ensures { PrintsText (printing O.Output reply.old reply.new) (spec.folder_of place.entry) }
{
    match place {
        Place::Own(path) => print_below(reply, folder_in(path)),
        Place::Other(_) => reply.print(b"other"),
    }
}

fn print_below<O: Output>(reply: &mut Reply<'_, O>, folder: Option<&[u8]>)
    ensures { PrintsText (printing O.Output reply.old reply.new) (spec.below (option_map (λ folder. folder.now) folder.entry)) }
{
    reply.print(b"sysroot");
    if let Some(folder) = folder {
        reply.print(b"/");
        reply.print(folder);
    }
}

#[tactic(auto, using(crate::proofs::FolderLemmas::folder_is, crate::proofs::FolderLemmas::apart_from_other, crate::proofs::FolderLemmas::other_apart))]
fn have_one_folder(place: Place<'_>, other: Place<'_>) -> bool
    ensures { result ≡ bytes_eq (spec.folder_of place.entry) (spec.folder_of other.entry) }
{
    match (place, other) {
        (Place::Own(path), Place::Own(others)) => are_one(folder_in(path), folder_in(others)),
        (Place::Other(_), Place::Other(_)) => true,
        _ => false,
    }
}

fn are_one(folder: Option<&[u8]>, other: Option<&[u8]>) -> bool
    ensures { result ≡ bytes_eq (spec.below (option_map (λ folder. folder.now) folder.entry)) (spec.below (option_map (λ folder. folder.now) other.entry)) }
{
    match (folder, other) {
        (Some(folder), Some(other)) => folder == other,
        (None, None) => true,
        _ => false,
    }
}

// The directory on a path that has one, without a slash before it.
#[tactic(auto, using(crate::proofs::FolderLemmas::folder_at, crate::proofs::FolderLemmas::folder_none))]
fn folder_in(path: &[u8]) -> Option<&[u8]>
    ensures { spec.below (option_map (λ folder. folder.now) result) ≡ spec.folder_below (components path.now) }
{
    match memrchr(b'/', path) {
        Some(at) => Some(&path[..at]),
        None => None,
    }
}
