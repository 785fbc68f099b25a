// The cases of an archive whose opening is refused, copied into a new file.
ghost use Rattle.std.specs.Prelude.{◌≡◌, ◌⊎◌, ◌^◌, ◌<◌, [], false, is_ok, OnOk};
ghost use Rattle.disk_model.specs.Calls.{read};
ghost use Rattle.std.proofs.lemmas.Bool.{false≢true};
ghost use Rattle.salvage.specs.Readings.{FoundWithin};
ghost use Rattle.archive_files.specs.Salvaging.{IsFaultIn, IsRefusedAside, IsSalvaged, IsSalvagedBy, Salvages, SalvagesOnto, PrintsFound, PrintsSalvage};
ghost use Rattle.whole_files.specs.Whole.{IsWhole};

use crate::archive_path::ArchivePath;
use crate::archives::{Access, make_file, name_refusal, print_trouble, settle_made, take_file};
use crate::copy_over::{copy_refusal, larger_wish};
use crate::failures::{Failure, FileWord, Refusal};
use archive_care::CopyWish;
use diagnostics::Onlooker;
use disk_model::{Disk, DiskFault, FileDisk, FileFault, HeldFile, OpenFile};
use inspector_cli::SessionFault;
use journal_layout::{OpenFault, Shape};
use salvage::{
    Found, Restored, ShapeWish, Source, copy_cases, find_cases, find_mended, find_shape,
    print_cases,
};
use script_streams::Output;
use std::alloc::Global;
use std::fs::File;
use std::rt::Files;
use std::time::Clock;
use whole_files::{NewFile, PartFile, clear, give_name};

// A regular file that is open for reading, of the length that it had when it was looked at. Nothing is proved of its bytes.
#[derive(Drop)]
struct ReadFile<F: HeldFile> {
    file: F,
    length: u64,
    ghost small: { length < 2 ^ 64 },
}

impl<F: HeldFile + Drop> ReadFile<F> {
    fn new(file: F) -> Result<ReadFile<F>, FileFault> {
        let mut file = file;
        let length = file.look_at_kind()?;
        Ok(ReadFile { file, length })
    }
}

impl<F: HeldFile> Source for ReadFile<F> {
    ghost size = { λ f. f.length };

    ghost seen = { λ f. [] };

    ghost is_honest = { λ f. false };

    ghost addressed = { λ f. f.small };

    ghost whole = { λ f honest. absurd (false≢true honest) };

    ghost seen_bytes = { λ f honest. absurd (false≢true honest) };

    fn length(&self) -> u64 {
        self.length
    }

    fn read_at(&self, at: u64, into: &mut [u8]) -> Result<(), DiskFault>
        ensures made { F.made self.now.file (read at (is_ok result) into.new) self.now.file }
    {
        match self.file.peek(into, at) {
            Ok(()) => Ok(()),
            Err(_) => Err(DiskFault::Read),
        }
    }
}

/// The file that is made, and the known facts of the archive's shape.
#[derive(Clone, Copy)]
pub struct Salvaged<'a> {
    /// The path of the new file.
    pub path: &'a str,
    /// The shape, if the archive doesn't have it. The new one has it too.
    pub wish: ShapeWish,
}

/// Copies the cases of the archive in a file into a new file, as far as its records can be read, and reports the first
/// fault and for each case whether it is whole. The archive's file is opened for reading, and its lock is shared
/// meanwhile with others that only look. The new file has its name only once it is whole and durable: until then it is
/// called NEW.part. If the superblock is damaged, the header of a half or the length of the file, a shape is found for
/// it (see `find_shape`). Returns `Told` if all that is done and a case is lost, or the version of a half is unknown.
pub fn salvage<R: AllocGlobal + Files<File = File> + Clock, O: Output, W: Onlooker>(
    rt: &R,
    place: ArchivePath<'_>,
    new: Salvaged<'_>,
    output: &mut O,
    onlooker: &mut W,
) -> Result<(), Failure>
    ensures told { PrintsSalvage O.Output output.old output.new result }
{
    match open_source(rt, place, onlooker) {
        Ok(source) => salvage_source(rt, &source, new, output, onlooker),
        Err(refusal) => Err(Failure::Refused(refusal)),
    }
}

// The same of the archive that a source gives.
fn salvage_source<R: AllocGlobal + Files<File = File>, S: Source, O: Output, W: Onlooker>(
    rt: &R,
    source: &S,
    new: Salvaged<'_>,
    output: &mut O,
    onlooker: &mut W,
) -> Result<(), Failure>
    ensures salvages { Salvages S.Source O.Output source.now output.old output.new result }
{
    match find_cases(rt.alloc(), source) {
        Ok(found) => salvage_found(rt, source, &found, new, output, onlooker),
        Err(fault) => salvage_mended(rt, source, fault, new, output, onlooker),
    }
}

// The same of an archive whose opening is refused so, and nothing lets it open.
fn salvage_mended<R: AllocGlobal + Files<File = File>, S: Source, O: Output, W: Onlooker>(
    rt: &R,
    source: &S,
    fault: OpenFault,
    new: Salvaged<'_>,
    output: &mut O,
    onlooker: &mut W,
) -> Result<(), Failure>
    ensures salvages { Salvages S.Source O.Output source.now output.old output.new result }
{
    let mended = match find_shape(rt.alloc(), source, fault, new.wish) {
        Ok(Some(mended)) => mended,
        Ok(None) => return Err(Failure::Refused(Refusal::Open(fault))),
        Err(fault) => return Err(Failure::Refused(Refusal::Open(fault))),
    };
    let view = Restored::new(source, &mended.front, mended.length);
    match find_mended(rt.alloc(), &view, mended.mend) {
        Ok(found) => salvage_found(rt, &view, &found, new, output, onlooker),
        Err(fault) => Err(Failure::Refused(Refusal::Open(fault))),
    }
}

// Copies the cases that were found, and reports them.
fn salvage_found<R: AllocGlobal + Files<File = File>, S: Source, O: Output, W: Onlooker>(
    rt: &R,
    source: &S,
    found: &Found,
    new: Salvaged<'_>,
    output: &mut O,
    onlooker: &mut W,
) -> Result<(), Failure>
    requires { FoundWithin (S.size source.now) found.now }
    ensures told { IsRefusedAside output.old output.new result ⊎ PrintsFound O.Output found.now output.old output.new result }
{
    let Ok(mut file) = PartFile::new(rt.alloc(), rt, new.path) else {
        return Err(Failure::Refused(Refusal::OutOfMemory));
    };
    match put_cases(rt.alloc(), source, found, &mut file, new.wish, onlooker) {
        Ok(()) => print_found(&file, found, output),
        Err(refusal) => Err(Failure::Refused(refusal)),
    }
}

// Reports the copied cases, once the new file is whole.
fn print_found<'a, R: Files<File = File>, O: Output>(
    file: &PartFile<'a, R>,
    found: &Found,
    output: &mut O,
) -> Result<(), Failure>
    requires whole { IsWhole false (⟦<PartFile<'a, R> as NewFile>⟧.facts file.now) }
    ensures told { PrintsFound O.Output found.now output.old output.new result }
{
    if !print_cases(found, output) {
        return Err(Failure::Faulted(SessionFault::WriteFailed));
    }
    if found.is_all() {
        return Ok(());
    }
    Err(Failure::Told)
}

/// The first fault of an archive that `salvage` finds, if there is one: also that of a gate by which the archive opens without the
/// records after it. It is looked for only if no other process has the archive's lock.
pub fn fault_found<R: AllocGlobal + Files<File = File> + Clock, W: Onlooker>(
    rt: &R,
    place: ArchivePath<'_>,
    onlooker: &mut W,
) -> Option<OpenFault> {
    let source = open_source(rt, place.at_once(), onlooker).ok()?;
    fault_in(rt.alloc(), &source)
}

// The same of the archive that a source gives.
fn fault_in<S: Source>(alloc: Global, source: &S) -> Option<OpenFault>
    ensures found { IsFaultIn S.Source source.now result }
{
    match find_cases(alloc, source) {
        Ok(found) => found.fault(),
        Err(_) => None,
    }
}

fn open_source<R: AllocGlobal + Files<File = File> + Clock, W: Onlooker>(
    rt: &R,
    place: ArchivePath<'_>,
    onlooker: &mut W,
) -> Result<ReadFile<OpenFile>, Refusal> {
    let taken = take_file(rt, place, Access::Looking, onlooker).and_then(ReadFile::new);
    taken.map_err(|fault| Refusal::File(FileWord::Archive, fault))
}

// Copies the cases that were found into a new file. If their records don't fit into a half of as many blocks as the archive has, and no
// number is wished for, a half of the new one has one block more.
fn put_cases<'a, R: Files<File = File>, S: Source, W: Onlooker>(
    alloc: Global,
    source: &S,
    found: &Found,
    file: &mut PartFile<'a, R>,
    asked: ShapeWish,
    onlooker: &mut W,
) -> Result<(), Refusal>
    requires { FoundWithin (S.size source.now) found.now }
    ensures whole { OnOk result (IsWhole false (⟦<PartFile<'a, R> as NewFile>⟧.facts file.new)) }
    ensures salvaged { OnOk result (IsSalvaged S.Source ⟦<FileDisk as Disk>⟧ source.now found.now asked) }
{
    let wish = CopyWish {
        shape: Shape {
            half_blocks: asked.half_blocks.unwrap_or(found.shape().half_blocks),
            data_blocks: asked.data_blocks.unwrap_or(found.shape().data_blocks),
        },
        keeps_labels: false,
    };
    let Err(refusal) = put_wished(alloc, source, found, file, wish, onlooker) else {
        return Ok(());
    };
    match larger_wish(asked.half_blocks, wish, refusal) {
        Some(larger) => put_wished(alloc, source, found, file, larger, onlooker),
        None => Err(refusal),
    }
}

// The same into a file as a wish says. A copy that fails leaves no file.
fn put_wished<'a, R: Files<File = File>, S: Source, W: Onlooker>(
    alloc: Global,
    source: &S,
    found: &Found,
    file: &mut PartFile<'a, R>,
    wish: CopyWish,
    onlooker: &mut W,
) -> Result<(), Refusal>
    requires { FoundWithin (S.size source.now) found.now }
    ensures whole { OnOk result (IsWhole false (⟦<PartFile<'a, R> as NewFile>⟧.facts file.new)) }
    ensures salvaged { OnOk result (IsSalvagedBy S.Source ⟦<FileDisk as Disk>⟧ source.now found.now wish) }
{
    clear(file).map_err(|fault| Refusal::File(FileWord::New, fault))?;
    let onto = make_file(alloc, file, wish.shape.length()?, false, onlooker)?;
    let (copied, mut onto) = salvage_onto(alloc, source, found, wish, onto);
    print_trouble(&onto, onlooker);
    settle_made(file, &mut onto, copied)?;
    // The lock of its file is kept until it has its name.
    let named = give_name(file);
    drop(onto);
    named.map_err(|fault| name_refusal(FileWord::New, fault))
}

/// Copies the cases that were found of an archive onto a new disk, as a wish says, and hands that back.
pub fn salvage_onto<S: Source, N: Disk>(
    alloc: Global,
    source: &S,
    found: &Found,
    wish: CopyWish,
    onto: N,
) -> (Result<(), Refusal>, N)
    requires { FoundWithin (S.size source.now) found.now }
    ensures { SalvagesOnto S.Source N.Disk source.now found.now wish onto result.0 result.1 }
{
    let mut onto = onto;
    match copy_cases(alloc, source, found, &mut onto, wish) {
        Ok(()) => (Ok(()), onto),
        Err(fault) => (Err(copy_refusal(fault)), onto),
    }
}
