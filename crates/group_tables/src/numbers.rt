//! Crashes and places of cores by numbers.
ghost use Rattle.std.specs.Prelude.{◌≡◌, IfOk, map, position};
ghost use Rattle.crash_signatures.specs.WordViews.{said};
ghost use Rattle.crash_signatures.specs.Words.{same_words};
ghost use Rattle.group_tables.specs.Numbers as spec;
ghost use Rattle.group_tables.specs.Values.{crash_said};

use crate::rows::Crash;
use crash_signatures::{Core, Text, Word};
use std::alloc::{AllocError, Global};

/// A place in a build.
#[derive(Drop)]
pub struct CrashPlace {
    /// The build ID that the core has for the file, if it has one.
    pub build: Option<Vec<u8>>,
    /// The file's name, and the place in it.
    pub text: Text,
}

/// A core with its crash, and its place, if that is known.
#[derive(Drop)]
pub struct CrashedCore {
    /// The number of its case.
    pub number: u32,
    /// Its crash.
    pub crash: Crash,
    /// Its place.
    pub place: Option<CrashPlace>,
}

/// The cores with a number for each crash and for each place: that of the first core that has it. So the number of a crash is that of
/// a core among these, from 0 on.
///
/// # Errors
///
/// There is no memory.
pub fn numbered(alloc: Global, cores: &[CrashedCore]) -> Result<Vec<Core>, AllocError>
    ensures { IfOk result (λ all. all.items ≡ spec.numbered cores.now) }
{
    cores
        .iter()
        .map(|core| numbered_core(cores, core))
        .collect(alloc)
}

fn numbered_core(cores: &[CrashedCore], core: &CrashedCore) -> Core
    ensures { result ≡ spec.numbered_core cores.now core.now }
{
    Core {
        number: u64::from(core.number),
        signature: crash_number(cores, core),
        is_missing: core.crash.signature.is_missing,
        place: place_number(cores, core),
    }
}

fn crash_number(cores: &[CrashedCore], core: &CrashedCore) -> usize
    ensures { result ≡ spec.crash_number cores.now core.now }
{
    first_same(cores, core).unwrap_or(cores.len())
}

fn first_same(cores: &[CrashedCore], core: &CrashedCore) -> Option<usize>
    ensures { result ≡ position (λ other. spec.is_same other core.now) cores.now }
{
    cores.iter().position(|other| is_same(other, core))
}

fn place_number(cores: &[CrashedCore], core: &CrashedCore) -> Option<usize>
    ensures { result ≡ spec.place_number cores.now core.now }
{
    cores.iter().position(|other| is_same_place(other, core))
}

// Whether two cores have one crash.
fn is_same(a: &CrashedCore, b: &CrashedCore) -> bool
    ensures { result ≡ spec.is_same a.now b.now }
{
    is_same_cause(&a.crash, &b.crash)
        && a.crash.signature.is_missing == b.crash.signature.is_missing
        && are_same(
            a.crash.signature.words.as_slice(),
            b.crash.signature.words.as_slice(),
        )
}

// Whether two lists of words are the same.
fn are_same(a: &[Word], b: &[Word]) -> bool
    ensures { result ≡ same_words (map said a.now) (map said b.now) }
{
    a == b
}

// Whether two crashes have one program and one signal.
fn is_same_cause(a: &Crash, b: &Crash) -> bool
    ensures { result ≡ spec.is_same_cause (crash_said a.now) (crash_said b.now) }
{
    a.program.as_slice() == b.program.as_slice() && a.signal == b.signal
}

// Whether two cores have one place, and one program and signal.
fn is_same_place(a: &CrashedCore, b: &CrashedCore) -> bool
    ensures { result ≡ spec.is_same_place a.now b.now }
{
    match (&a.place, &b.place) {
        (Some(one), Some(other)) => is_same_spot(one, other) && is_same_cause(&a.crash, &b.crash),
        _ => false,
    }
}

fn is_same_spot(a: &CrashPlace, b: &CrashPlace) -> bool
    ensures { result ≡ spec.is_same_spot a.now b.now }
{
    a.text.as_slice() == b.text.as_slice() && is_same_build(&a.build, &b.build)
}

fn is_same_build(a: &Option<Vec<u8>>, b: &Option<Vec<u8>>) -> bool
    ensures { result ≡ spec.is_same_build a.now b.now }
{
    match (a, b) {
        (Some(a), Some(b)) => a.as_slice() == b.as_slice(),
        (None, None) => true,
        _ => false,
    }
}
