//! The places where files are unpacked.
ghost use Rattle.std.specs.Prelude.{◌≡◌, ◌++◌, IfOk, codes, map};
ghost use Rattle.std.specs.List.{list_any};
ghost use Rattle.script_streams.specs.Replies.{PrintsText, printing};
ghost use Rattle.case_unpacking.specs.Names.{components};
ghost use Rattle.case_unpacking.specs.Places as spec;
ghost use Rattle.case_unpacking.specs.PlaceViews.{file_said, place_said};

use crate::names::plain_path;
use script_streams::{Output, Reply};
use std::alloc::{AllocError, Global};

/// A file that a core names, with the case whose image is unpacked for it.
#[derive(Clone, Copy)]
pub struct NamedCase<'a> {
    /// The name of the file, as the core has it.
    pub name: &'a [u8],
    /// The number of the case.
    pub case: u32,
}

/// The place where a file is unpacked.
#[derive(Clone, Copy)]
pub enum Place<'a> {
    /// In `sysroot`, at this path, which has no slash before it.
    Own(&'a [u8]),
    /// In `other`, under the number of its case.
    Other(u32),
}

/// The places of files, in their order.
///
/// # Errors
///
/// There is no memory for them.
pub fn places_of<'a>(alloc: Global, files: &[NamedCase<'a>]) -> Result<Vec<Place<'a>>, AllocError>
    ensures { IfOk result (λ places. spec.ArePlaces (map file_said files.now) (map place_said places.items)) }
{
    let mut places = Vec::new(alloc);
    for file in files {
        let place = place_beside(places.as_slice(), file);
        places.push(place)?;
    }
    Ok(places)
}

// The place of a file beside those that are taken.
fn place_beside<'a>(before: &[Place<'_>], file: &NamedCase<'a>) -> Place<'a>
    ensures { place_said result ≡ spec.place_beside (map place_said before.now) (file_said file.now) }
{
    match plain_path(file.name) {
        Some(path) if !is_met(before, path) => Place::Own(path),
        _ => Place::Other(file.case),
    }
}

// Whether the place at a path meets one of those before.
fn is_met(before: &[Place<'_>], path: &[u8]) -> bool
    ensures { result ≡ list_any (spec.meet (spec.below_root path.now)) (map place_said before.now) }
{
    before.iter().any(|place| place.meets(path))
}

// Whether two paths have the same components as far as both go.
fn meet(path: &[u8], other: &[u8]) -> bool
    ensures { result ≡ spec.meet (components path.now) (components other.now) }
{
    path.split(|byte| *byte == b'/')
        .zip(other.split(|byte| *byte == b'/'))
        .all(|(part, others)| part == others)
}

// Prints a path below `sysroot`.
fn print_own<O: Output>(reply: &mut Reply<'_, O>, path: &[u8])
    ensures { PrintsText (printing O.Output reply.old reply.new) (codes "sysroot/" ++ path.now) }
{
    reply.print(b"sysroot/");
    reply.print(path);
}

impl<'a> Place<'a> {
    // Whether the place at a path is this, or one of them is a directory on the path of the other.
    fn meets(self, path: &[u8]) -> bool
        ensures { result ≡ spec.meet (spec.below_root path.now) (place_said self.entry) }
    {
        match self {
            Place::Own(own) => meet(path, own),
            Place::Other(_) => false,
        }
    }

    /// Prints the text of the place, as a path from the directory below which it is.
    #[tactic(auto, using(crate::proofs::PathLemmas::below_text))]
    pub fn print<O: Output>(self, reply: &mut Reply<'_, O>)
        ensures { PrintsText (printing O.Output reply.old reply.new) (spec.place_text (place_said self.entry)) }
    {
        match self {
            Place::Own(path) => print_own(reply, path),
            Place::Other(case) => {
                reply.print(b"other/");
                reply.print_decimal(u128::from(case));
            }
        }
    }
}
