// The cases whose images have bytes somewhere, over one archive that is open.
ghost use Rattle.std.specs.Prelude.{◌≡◌, ◌++◌, ◌∷◌, [], IfOk, OnOk, filter, if◌then◌else◌, map};
ghost use Rattle.case_queries.specs.Fronts.{HasSize};
ghost use Rattle.case_tables.specs.Wanted.{is_wanted};
ghost use Rattle.intake.specs.Parts.{state_of};
ghost use Rattle.journal_layout.specs.Case.{case_of};
ghost use Rattle.case_listing.specs.Having.{FindsAmong, FindsOn, FindsWanted, HasText, number_of, wanted_numbers};

use crate::containing::image_has;
use archive_files::Refusal;
use case_tables::Wanted;
use disk_model::Disk;
use intake::{Archive, Settings};
use journal_layout::Entry;
use std::alloc::{AllocError, Global};

// Opens the archive on a disk, and finds the numbers of the wanted cases whose images have the bytes.
pub(crate) fn numbers_with<D: Disk + Drop>(
    alloc: Global,
    disk: D,
    wanted: &Wanted<'_>,
    sought: &[u8],
) -> Result<Vec<u32>, Refusal>
    ensures { FindsOn D.Disk wanted.now sought.now disk result }
{
    match Archive::open(alloc, disk, Settings { limit: 0 }) {
        Ok(archive) => {
            let mut archive = archive;
            numbers_in(alloc, &mut archive, wanted, sought)
        }
        Err((fault, _)) => Err(Refusal::Open(fault)),
    }
}

// The same in an archive that is open.
fn numbers_in<D: Disk>(
    alloc: Global,
    archive: &mut Archive<D>,
    wanted: &Wanted<'_>,
    sought: &[u8],
) -> Result<Vec<u32>, Refusal>
    ensures { IfOk result (λ found. FindsWanted D.Disk archive.old wanted.now sought.now found.items archive.new) }
{
    let numbers = match archive.cases() {
        Ok(cases) => wanted_numbers(alloc, cases, wanted)?,
        Err(fault) => return Err(Refusal::Call(fault)),
    };
    Ok(among(alloc, &numbers, sought, archive)?)
}

// The numbers of the wanted cases.
fn wanted_numbers(
    alloc: Global,
    cases: &[Entry],
    wanted: &Wanted<'_>,
) -> Result<Vec<u32>, AllocError>
    ensures { IfOk result (λ numbers. numbers.items ≡ wanted_numbers wanted.now (map case_of cases.now)) }
{
    let mut numbers = Vec::new(alloc);
    for case in cases {
        add_wanted(&mut numbers, case, wanted)?;
    }
    Ok(numbers)
}

// Adds the number of a case, if it is wanted.
fn add_wanted(numbers: &mut Vec<u32>, case: &Entry, wanted: &Wanted<'_>) -> Result<(), AllocError>
    ensures { OnOk result (numbers.new.items ≡ numbers.old.items ++ map number_of (filter (is_wanted wanted.now) (case_of case.now ∷ []))) }
{
    if !wanted.takes(case) {
        return Ok(());
    }
    numbers.push(case.seq)?;
    Ok(())
}

// Of these cases, one after the other, the numbers of those whose images have the bytes.
fn among<D: Disk>(
    alloc: Global,
    numbers: &[u32],
    sought: &[u8],
    archive: &mut Archive<D>,
) -> Result<Vec<u32>, Refusal>
    ensures { IfOk result (λ found. FindsAmong D.Disk archive.old sought.now numbers.now found.items archive.new) }
{
    let mut found = Vec::new(alloc);
    for seq in numbers {
        let has = has_text(alloc, *seq, sought, archive)?;
        add_if(&mut found, has, *seq)?;
    }
    Ok(found)
}

// Adds a number, if its case has the bytes.
fn add_if(found: &mut Vec<u32>, has: bool, seq: u32) -> Result<(), AllocError>
    ensures { OnOk result (found.new.items ≡ found.old.items ++ (if has then seq ∷ [] else [])) }
{
    if !has {
        return Ok(());
    }
    found.push(seq)?;
    Ok(())
}

// Whether the image of a case has the bytes. No bytes at all are `BadLine`.
fn has_text<D: Disk>(
    alloc: Global,
    seq: u32,
    sought: &[u8],
    archive: &mut Archive<D>,
) -> Result<bool, Refusal>
    ensures { IfOk result (λ has. HasText D.Disk archive.old sought.now seq has archive.new) }
{
    if sought.is_empty() {
        return Err(Refusal::BadLine);
    }
    let size = size_of(seq, archive)?;
    Ok(image_has(alloc, seq, size, sought, archive)?)
}

// How many bytes the image of a case has.
fn size_of<D: Disk>(seq: u32, archive: &Archive<D>) -> Result<usize, Refusal>
    ensures { IfOk result (λ size. HasSize (state_of archive.now) seq size) }
{
    match archive.case(seq) {
        Ok(case) => Ok(case.length as usize),
        Err(fault) => Err(Refusal::Call(fault)),
    }
}
