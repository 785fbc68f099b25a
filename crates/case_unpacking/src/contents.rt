// The contents that are unpacked of a case, and their places.
ghost use Rattle.std.specs.Prelude.{◌≡◌, ◌++◌, IfOk, OnOk, Some, is_some, map};
ghost use Rattle.std.specs.List.{list_any};
ghost use Rattle.case_info.specs.Unpacking.{name_kept, unpacked_view};
ghost use Rattle.case_unpacking.specs.PlaceViews.{file_said};
ghost use Rattle.case_unpacking.specs.Contents.{at_index, but_index, files_said, program_at, said_with};

use crate::{NamedCase, Place, Unpacked, places_of};
use case_info::{DebugFile, UnpackedFile, Unpacking};
use std::alloc::{AllocError, Global};

// The executables that are unpacked, each with the name of a file that it is used for, and their places.
#[derive(Drop)]
pub(crate) struct Placed<'a> {
    pub(crate) named: Vec<NamedCase<'a>>,
    pub(crate) places: Vec<Place<'a>>,
    // Which of them is the program.
    program: Option<usize>,
    // Those of the others.
    others: Vec<Place<'a>>,
}

impl<'a> Placed<'a> {
    ghost use Rattle.case_unpacking.specs.ContentsWords.{IsDescribed, IsPlaced};

    pub(crate) fn of(alloc: Global, unpacking: &'a Unpacking) -> Result<Placed<'a>, AllocError>
        ensures { IfOk result (IsPlaced unpacking.entry.now) }
    {
        let named = named_cases(alloc, &unpacking.files)?;
        let places = places_of(alloc, &named)?;
        let program = program_among(&named, &unpacking.program);
        let others = others_of(alloc, &places, program)?;
        Ok(Placed {
            named,
            places,
            program,
            others,
        })
    }

    // The facts that a debugger needs.
    pub(crate) fn described(&'a self, unpacking: &Unpacking) -> Unpacked<'a>
        ensures { IsDescribed self.now unpacking.now result }
    {
        Unpacked {
            program: place_at(&self.places, self.program),
            others: &self.others,
            has_core: unpacking.is_core,
            has_debug: has_debug(&unpacking.files),
        }
    }
}

// The files for which an executable is used, with its number.
fn named_cases<'a>(
    alloc: Global,
    files: &'a [UnpackedFile],
) -> Result<Vec<NamedCase<'a>>, AllocError>
    ensures { IfOk result (λ named. map file_said named.items ≡ files_said (map unpacked_view files.entry.now)) }
{
    let mut named = Vec::new(alloc);
    for file in files {
        add_named(&mut named, file)?;
    }
    Ok(named)
}

fn add_named<'a>(named: &mut Vec<NamedCase<'a>>, file: &'a UnpackedFile) -> Result<(), AllocError>
    ensures { OnOk result (map file_said named.new.items ≡ map file_said named.old.items ++ said_with file.entry.now.name.items file.entry.now.case) }
{
    if let Some(case) = file.case {
        named.push(NamedCase {
            name: &file.name,
            case,
        })?;
    }
    Ok(())
}

// Which of these is the program.
fn program_among(named: &[NamedCase<'_>], program: &Option<Vec<u8>>) -> Option<usize>
    ensures { result ≡ program_at named.now (name_kept program.now) }
{
    match program {
        Some(program) => index_of(named, program),
        None => None,
    }
}

fn index_of(named: &[NamedCase<'_>], program: &[u8]) -> Option<usize>
    ensures { result ≡ program_at named.now (Some program.now) }
{
    named.iter().position(|file| file.name == program)
}

// The place at an index, if there is one.
fn place_at<'a>(places: &[Place<'a>], index: Option<usize>) -> Option<Place<'a>>
    ensures { result ≡ at_index places.now index }
{
    places.get(index?).copied()
}

// The places but that at an index.
fn others_of<'a>(
    alloc: Global,
    places: &[Place<'a>],
    index: Option<usize>,
) -> Result<Vec<Place<'a>>, AllocError>
    ensures { IfOk result (λ others. others.items ≡ but_index places.now index) }
{
    let Some(at) = index else {
        return places.to_vec(alloc);
    };
    let (before, rest) = places.split_at(at.min(places.len()));
    let (_, behind) = rest.split_at(rest.len().min(1));
    let mut others = before.to_vec(alloc)?;
    others.extend_from_slice(behind)?;
    Ok(others)
}

// Whether one of the files has a debug file.
fn has_debug(files: &[UnpackedFile]) -> bool
    ensures { result ≡ list_any (λ file. is_some file.debug) files.now }
{
    files.iter().any(|file| is_there(&file.debug))
}

fn is_there(debug: &Option<DebugFile>) -> bool
    ensures { result ≡ is_some debug.now }
{
    debug.is_some()
}
