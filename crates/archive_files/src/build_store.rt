// A file that is stored under the name that its build ID gives.
ghost use Rattle.std.specs.Prelude.{◌≡◌, ◌⊎◌, ◌++◌, List, ℕ, Ok, Err, Some, IfOk, IfErr, MatchResult, codes, length};
ghost use Rattle.std.specs.Option.{option_map};
ghost use Rattle.stream_names.specs.Commands.{stream_found};
ghost use Rattle.inspector_cli.specs.Storing.{line_stream};
ghost use Rattle.script_lines.specs.Said.{said};
ghost use Rattle.archive_files.specs.Builds as spec;
ghost use Rattle.archive_files.specs.declared.build_store.BuildFault.{BuildFault};
ghost use Rattle.archive_files.specs.declared.failures.Refusal.TheVariants.{Build, OutOfMemory};

use crate::archive_path::ArchivePath;
use crate::archives::{Access, print_trouble, take_disk};
use crate::failures::{Failure, FileWord, Refusal};
use crate::file_store::refuse_taken;
use crate::storing::{StoreRequest, StoreWords};
use arrayvec::ArrayVec;
use build_ids::{build_name, debug_name, has_name, told_name};
use diagnostics::Onlooker;
use disk_model::{FileDisk, FileFault};
use elf_view::{Elf, ElfFault, Want};
use inspector_cli::{Naming, StoreOptions};
use retention::Policy;
use std::alloc::Global;
use std::fs::File;
use std::io::Read;
use std::rt::Files;
use std::time::Clock;

/// Why a file can't be stored under the name of its build.
#[derive(Clone, Copy, PartialEq, Eq)]
pub enum BuildFault {
    /// It has fewer bytes than was stated.
    Short,
    /// It has more bytes than an image may have, or than was stated.
    TooLong,
    /// Its headers, as those of an executable, have this fault.
    Headers(ElfFault),
    /// It has no build ID that gives a name.
    NoBuildId,
    /// Its build ID is another one than was stated.
    OtherBuild,
}

/// A request to store a file under the name of its build.
#[derive(Drop)]
pub struct BuildRequest {
    /// The build ID that it must have, if one is stated.
    pub id: Option<ArrayVec<u8, 64>>,
    /// It is stored as a debug file, whatever it is.
    pub is_debug: bool,
    /// By which cases are retired first, if that is asked for.
    pub policy: Option<Policy>,
    /// The other options. The length is the one that is stated.
    pub options: StoreOptions,
    /// How cores are named.
    pub naming: Naming,
    /// The most bytes of an image.
    pub limit: u64,
}

impl BuildRequest {
    /// The request to store a file that has these bytes: as an executable of the name that its build ID gives.
    ///
    /// # Errors
    ///
    /// The first that holds: `TooLong` over the limit; `Short` or `TooLong`, if another length is stated; the first fault of its headers as
    /// an executable; `NoBuildId`; `OtherBuild`. Last `OutOfMemory`, if there is no memory for the request.
    pub fn for_image(self, alloc: Global, image: &[u8]) -> Result<StoreRequest, Refusal>
        ensures named { IfOk result (λ request. (name : List ℕ)
            × (spec.name_by_build self.limit self.options.length (option_map (λ id. id.items) self.id) self.is_debug image.now ≡ Ok name)
            × (stream_found request.found ≡ line_stream self.naming (said (codes "begin exec 0 " ++ name))) × (request.policy ≡ self.policy) × (request.limit ≡ self.limit)
            × (request.options ≡ record self.options { length = Some (length image.now) })) }
        ensures refused { IfErr result (λ why. (why ≡ OutOfMemory) ⊎ ((fault : BuildFault) × (why ≡ Build fault)
            × (spec.name_by_build self.limit self.options.length (option_map (λ id. id.items) self.id) self.is_debug image.now ≡ Err fault))) }
    {
        let name = match self.name_for(image) {
            Ok(name) => name,
            Err(fault) => return Err(Refusal::Build(fault)),
        };
        let Ok(begin) = b"begin exec 0 ".to_vec(alloc) else {
            return Err(Refusal::OutOfMemory);
        };
        let mut begin = begin;
        if begin.extend_from_slice(&name).is_err() {
            return Err(Refusal::OutOfMemory);
        }
        let words = StoreWords {
            policy: self.policy,
            begin,
            options: StoreOptions {
                length: Some(image.len() as u64),
                ..self.options
            },
        };
        Ok(StoreRequest::of(words, &self.naming, self.limit))
    }

    // The name of a file that has these bytes.
    #[tactic(auto, unfolding(crate::specs::Builds::name_by_build))]
    fn name_for(&self, image: &[u8]) -> Result<ArrayVec<u8, 128>, BuildFault>
        ensures { MatchResult result
            (λ name. spec.name_by_build self.now.limit self.now.options.length (option_map (λ id. id.items) self.now.id) self.now.is_debug image.now ≡ Ok name.items)
            (λ fault. spec.name_by_build self.now.limit self.now.options.length (option_map (λ id. id.items) self.now.id) self.now.is_debug image.now ≡ Err fault) }
    {
        if let Some(fault) = length_fault(self.limit, self.options.length, image.len() as u64) {
            return Err(fault);
        }
        if let Err(fault) = Elf::read(image, Want::Exec) {
            return Err(BuildFault::Headers(fault));
        }
        let Some(name) = told_name(self.is_debug, image) else {
            return Err(BuildFault::NoBuildId);
        };
        if is_other(&self.id, &name) {
            return Err(BuildFault::OtherBuild);
        }
        Ok(name)
    }
}

// The fault of a file of this size.
fn length_fault(limit: u64, stated: Option<u64>, size: u64) -> Option<BuildFault>
    ensures { result ≡ spec.length_fault limit stated size }
{
    if size > limit {
        return Some(BuildFault::TooLong);
    }
    match stated {
        Some(stated) if size < stated => Some(BuildFault::Short),
        Some(stated) if size > stated => Some(BuildFault::TooLong),
        _ => None,
    }
}

// Whether a name is of another build than the one that is stated, if one is.
fn is_other(id: &Option<ArrayVec<u8, 64>>, name: &[u8]) -> bool
    ensures { result ≡ spec.is_other (option_map (λ id. id.items) id.now) name.now }
{
    match id {
        Some(id) if has_name(id) => {
            name != build_name(id).as_slice() && name != debug_name(id).as_slice()
        }
        Some(_) => true,
        None => false,
    }
}

/// Reads a file, or the standard input, into memory. Of one that has more bytes than the limit one byte more is read.
///
/// # Errors
///
/// `File` if it can't be opened or read, `OutOfMemory` if there is no memory for it.
pub fn read_whole<R: AllocGlobal + Files<File = File>, I: Read>(
    rt: &R,
    file: &str,
    limit: u64,
    input: &mut I,
) -> Result<Vec<u8>, Refusal> {
    if file == "-" {
        return bytes_of(rt.alloc(), input, limit);
    }
    match File::open(rt, file) {
        Ok(mut file) => bytes_of(rt.alloc(), &mut file, limit),
        Err(error) => Err(Refusal::File(FileWord::File, FileFault::from(error))),
    }
}

// The bytes of a reader, at most one more than the limit.
fn bytes_of<I: Read>(alloc: Global, input: &mut I, limit: u64) -> Result<Vec<u8>, Refusal> {
    let mut bytes = Vec::new(alloc);
    match input.take(limit.saturating_add(1)).read_to_end(&mut bytes) {
        Ok(_) => Ok(bytes),
        Err(error) => Err(Refusal::File(FileWord::File, FileFault::from(error))),
    }
}

/// Reports the fault of an archive, or else why a file that was to be stored in it is refused. The archive's disk is handed on, if it was
/// taken.
pub fn refuse_file<R: AllocGlobal + Files<File = File> + Clock, W: Onlooker>(
    rt: &R,
    place: ArchivePath<'_>,
    limit: u64,
    refusal: Refusal,
    onlooker: &mut W,
) -> (Result<(), Failure>, Option<FileDisk>) {
    let taken = take_disk(rt, place, Access::Changing, onlooker);
    let (ended, disk) = refuse_taken(rt.alloc(), taken, limit, refusal);
    if let Some(disk) = &disk {
        print_trouble(disk, onlooker);
    }
    (ended, disk)
}
