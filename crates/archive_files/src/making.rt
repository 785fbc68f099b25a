// `format` on a disk.
ghost use Rattle.std.specs.Prelude.{true};
ghost use Rattle.journal_layout.specs.Standing.{fresh};
ghost use Rattle.journal_layout.specs.Stands.{Stands};
ghost use Rattle.archive_files.specs.Making.{MakesArchive, WhatIsMadeLasts};

use crate::archives::NewArchive;
use crate::failures::Refusal;
use case_journal::format;
use disk_model::Disk;
use intake::{Archive, Settings, a_state_tells_what_lasts};
use journal_layout::{Half, Shape};
use std::alloc::Global;

/// An archive that is reported as made is there: whatever a stop leaves from then on opens as an archive with no case, on an honest disk.
pub fn what_is_made_lasts<D: Disk>()
    ensures { WhatIsMadeLasts D.Disk }
{}

/// Makes an archive with no case on a disk, and hands the disk back. One that keeps labels is made as any other, and brought to
/// version 2 of the layout then.
pub fn format_over<D: Disk>(alloc: Global, disk: D, wanted: NewArchive) -> (Result<(), Refusal>, D)
    ensures { MakesArchive D.Disk wanted.shape wanted.keeps_labels disk result.0 result.1 }
{
    let mut disk = disk;
    match format(&mut disk, wanted.shape) {
        Ok(()) if wanted.keeps_labels => in_version_two(alloc, disk),
        Ok(()) => (Ok(()), disk),
        Err(fault) => (Err(Refusal::from(fault)), disk),
    }
}

// Brings an archive with no case to version 2 of the layout.
fn in_version_two<D: Disk>(alloc: Global, disk: D) -> (Result<(), Refusal>, D)
    ensures { (shape : Shape) → Stands (D.seen disk) (fresh shape Half.A 1 1) → MakesArchive D.Disk shape true disk result.0 result.1 }
{
    a_state_tells_what_lasts::<D>();
    match Archive::open(alloc, disk, Settings { limit: 0 }) {
        Ok(archive) => {
            let mut archive = archive;
            let upgraded = archive.upgrade();
            let disk = archive.close();
            match upgraded {
                Ok(()) => (Ok(()), disk),
                Err(fault) => (Err(Refusal::Call(fault)), disk),
            }
        }
        Err((fault, disk)) => (Err(Refusal::Open(fault)), disk),
    }
}
