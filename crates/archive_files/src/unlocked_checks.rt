// A check of an archive, while others may change it.
ghost use Rattle.std.specs.Prelude.{◌≡◌, false, map, IfErr, IfOk};
ghost use Rattle.std.specs.List.{flat_map};
ghost use Rattle.intake.specs.Parts.{state_of};
ghost use Rattle.intake.specs.Reading.{IsReadFault};
ghost use Rattle.intake.specs.declared.faults.ArchiveFault.TheVariants.{OutOfMemory};
ghost use Rattle.script_streams.specs.Replies.{PrintsText, printing};
ghost use Rattle.shared_disk.specs.Looks.{shared_of};
ghost use Rattle.archive_checks.specs.Checking.{cases_seen};
ghost use Rattle.archive_files.specs.UnlockedChecks.{ChecksUnlocked, Examines, Holds, LooksBack, Reports, settled, told_line, told_words};
ghost use Rattle.archive_files.specs.UnlockedFinding.{has_number};
ghost use Rattle.archive_files.specs.UnlockedImages.{AreSeen, IsRead};

use crate::unlocked_faults::UnlockedCheckFault;
use crate::unlocked_finding::has_number;
use crate::unlocked_images::{SeenCase, see_images};
use archive_checks::{Verdict, print_facts, print_gone, print_verdict};
use disk_model::Disk;
use intake::{
    Archive, ArchiveFault, Settings, Space, a_case_is_there_between, the_next_number_is_above,
};
use script_streams::{Output, Reply};
use shared_disk::{Looked, SharedDisk, Unlocked};
use std::alloc::Global;

// The contents of an archive, and the findings on its images.
#[derive(Drop)]
pub(crate) struct Findings {
    pub(crate) version: u32,
    pub(crate) count: u64,
    pub(crate) space: Space,
    pub(crate) cases: Vec<SeenCase>,
}

// A case, and the finding on its image; or that it is gone.
#[derive(Clone, Copy)]
pub(crate) struct ToldCase {
    pub(crate) seq: u32,
    pub(crate) verdict: Option<Verdict>,
}

/// Prints the contents of an archive, and that it is sound, from a look at it on. With `sees_images` it reads each image too, and prints
/// whether its headers and notes are sound, or the first bad field. That takes as much memory as the longest image has bytes. The
/// lock is not held meanwhile, and the archive is looked at again then: the line of a case that is gone is `case N no NoCase`. All
/// others are as if nobody had changed the archive since the first look.
///
/// # Errors
///
/// `Open` if the archive could not be opened. `Archive` if an image could not be read, or there was no memory. `Look` and `Reopen` if
/// nobody could say whether the cases are still there. Nothing was written then. `Output` if the output failed.
pub fn check_unlocked<S: SharedDisk + Drop, O: Output>(
    alloc: Global,
    looked: Looked<S>,
    sees_images: bool,
    output: &mut O,
) -> Result<(), UnlockedCheckFault>
    ensures { ChecksUnlocked S.SharedDisk ⟦<Unlocked<'static, S> as Disk>⟧ (shared_of looked) sees_images (O.taken output.old) (O.taken output.new) (O.failures output.old) (O.failures output.new) result }
{
    let findings = examine(alloc, &looked, sees_images)?;
    let told = look_back(alloc, looked.into_shared(), &findings.cases)?;
    report(&findings, &told, output)
}

// Opens the archive as the last look saw it, and finds its contents.
fn examine<S: SharedDisk + Drop>(
    alloc: Global,
    looked: &Looked<S>,
    sees_images: bool,
) -> Result<Findings, UnlockedCheckFault>
    ensures { Examines S.SharedDisk ⟦<Unlocked<'static, S> as Disk>⟧ (shared_of looked.now) sees_images result }
{
    the_next_number_is_above();
    a_case_is_there_between();
    match Archive::open(
        alloc,
        looked.unlocked(Vec::new(alloc)),
        Settings { limit: 0 },
    ) {
        Ok(archive) => match holdings(alloc, looked, &archive, sees_images) {
            Ok(findings) => Ok(findings),
            Err(fault) => Err(UnlockedCheckFault::Archive(fault)),
        },
        Err((fault, _)) => Err(UnlockedCheckFault::Open(fault)),
    }
}

// The contents of an open archive, and the findings on its images, if they are asked for.
fn holdings<S: SharedDisk + Drop, D: Disk>(
    alloc: Global,
    looked: &Looked<S>,
    archive: &Archive<D>,
    sees_images: bool,
) -> Result<Findings, ArchiveFault>
    requires runs { (state_of archive.now).stopped ≡ false }
    requires sized { D.size archive.now.disk ≡ S.size (shared_of looked.now) }
    ensures holds { IfOk result (λ findings. Holds S.SharedDisk D.Disk (shared_of looked.now) archive.now sees_images findings) }
    ensures reply { IfErr result IsReadFault }
{
    let version = archive.version()?;
    let count = archive.cases()?.len() as u64;
    let space = archive.free_blocks()?;
    let cases = see_cases(alloc, looked, archive, sees_images)?;
    Ok(Findings {
        version,
        count,
        space,
        cases,
    })
}

// The findings on the images, if they are asked for.
fn see_cases<S: SharedDisk + Drop, D: Disk>(
    alloc: Global,
    looked: &Looked<S>,
    archive: &Archive<D>,
    sees_images: bool,
) -> Result<Vec<SeenCase>, ArchiveFault>
    requires runs { (state_of archive.now).stopped ≡ false }
    requires sized { D.size archive.now.disk ≡ S.size (shared_of looked.now) }
    ensures seen { IfOk result (λ seen. AreSeen (IsRead S.SharedDisk D.Disk (shared_of looked.now) archive.now) (cases_seen (state_of archive.now) sees_images) seen.items) }
    ensures reply { IfErr result IsReadFault }
{
    if !sees_images {
        return Ok(Vec::new(alloc));
    }
    see_images(alloc, looked, archive)
}

// Looks again, if there are cases, whether each is still there.
fn look_back<S: SharedDisk + Drop>(
    alloc: Global,
    shared: S,
    cases: &[SeenCase],
) -> Result<Vec<ToldCase>, UnlockedCheckFault>
    ensures { LooksBack S.SharedDisk ⟦<Unlocked<'static, S> as Disk>⟧ shared cases.now result }
{
    if cases.is_empty() {
        return Ok(Vec::new(alloc));
    }
    let again = match Looked::look(alloc, shared) {
        Ok(again) => again,
        Err(fault) => return Err(UnlockedCheckFault::Look(fault)),
    };
    match Archive::open(
        alloc,
        again.unlocked(Vec::new(alloc)),
        Settings { limit: 0 },
    ) {
        Ok(archive) => match settle(alloc, &archive, cases) {
            Ok(told) => Ok(told),
            Err(fault) => Err(UnlockedCheckFault::Archive(fault)),
        },
        Err((fault, _)) => Err(UnlockedCheckFault::Reopen(fault)),
    }
}

// The line about each case, by the cases that the archive has now.
fn settle<D: Disk>(
    alloc: Global,
    archive: &Archive<D>,
    cases: &[SeenCase],
) -> Result<Vec<ToldCase>, ArchiveFault>
    ensures settled { IfOk result (λ told. told.items ≡ map (settled (has_number (state_of archive.now))) cases.now) }
    ensures memory { IfErr result (λ f. f ≡ OutOfMemory) }
{
    let mut told = Vec::with_capacity(alloc, cases.len())?;
    for case in cases {
        let Ok(()) = told.push(settled(archive, *case)) else {
            return Err(ArchiveFault::OutOfMemory);
        };
    }
    Ok(told)
}

fn settled<D: Disk>(archive: &Archive<D>, case: SeenCase) -> ToldCase
    ensures { result ≡ settled (has_number (state_of archive.now)) case }
{
    let SeenCase { seq, verdict } = case;
    if has_number(archive, seq) {
        ToldCase {
            seq,
            verdict: Some(verdict),
        }
    } else {
        ToldCase { seq, verdict: None }
    }
}

// Prints the contents of an archive, and its cases.
fn report<O: Output>(
    findings: &Findings,
    cases: &[ToldCase],
    output: &mut O,
) -> Result<(), UnlockedCheckFault>
    ensures { Reports findings.now cases.now (O.taken output.old) (O.taken output.new) (O.failures output.old) (O.failures output.new) result }
{
    let mut reply = Reply::new(output);
    print_facts(&mut reply, findings.version, findings.count, findings.space);
    print_cases(&mut reply, cases);
    reply.print(b"sound\n");
    match reply.finish() {
        Ok(()) => Ok(()),
        Err(_) => Err(UnlockedCheckFault::Output),
    }
}

fn print_cases<O: Output>(reply: &mut Reply<'_, O>, cases: &[ToldCase])
    ensures { PrintsText (printing O.Output reply.old reply.new) (flat_map told_line cases.now) }
{
    for case in cases {
        print_case(reply, case.seq, case.verdict);
    }
}

fn print_case<O: Output>(reply: &mut Reply<'_, O>, seq: u32, verdict: Option<Verdict>)
    ensures { PrintsText (printing O.Output reply.old reply.new) (told_words seq verdict) }
{
    match verdict {
        Some(verdict) => print_verdict(reply, seq, verdict),
        None => print_gone(reply, seq),
    }
}
