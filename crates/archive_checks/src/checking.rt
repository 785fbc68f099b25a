// Whether an archive is sound, and the place of the damage if it is not.
ghost use Rattle.std.specs.Prelude.{◌≡◌, ◌≤◌, ℕ, false, List, Option, Some, Result, Ok, OnOk, length, slice_get};
ghost use Rattle.std.specs.Option.{option_map};
ghost use Rattle.archive_checks.specs.Checking.{ChecksOnDisk, IsDamageLine, PrintsHoldings, PrintsImage, PrintsImages, ToldOf, case_words, cases_seen, check_end};
ghost use Rattle.archive_checks.specs.Texts.{place_line};
ghost use Rattle.case_journal.specs.Viewing.{OnlyReads};
ghost use Rattle.intake.specs.Parts.{state_of};
ghost use Rattle.journal_layout.specs.Case.{Case};
ghost use Rattle.script_streams.specs.Replies.{PrintsReply, printing};
ghost use Rattle.script_streams.specs.Printing.{IsDelivered};
ghost use Rattle.script_streams.specs.declared.streams.StreamFault.{StreamFault};

use crate::lines::{Place, print_facts, print_place};
use crate::shapes::shape_on;
use crate::verdict::{print_verdict, verdict_of};
use disk_model::Disk;
use intake::{Archive, ArchiveFault, Settings};
use journal_layout::{Half, Kind, OpenFault, Shape};
use script_streams::{Output, Reply, StreamFault};
use std::alloc::Global;

/// Why an archive was not found sound.
#[derive(Clone, Copy, PartialEq, Eq)]
pub enum CheckFault {
    /// Its opening is refused so.
    Open(OpenFault),
    /// It could not be read, or there was no memory for an image.
    Archive(ArchiveFault),
    /// The text could not be written.
    Output,
}

// The bytes of a half's header, and of the part of a record that has its length.
const HEADER: u64 = 32;

const HEAD: usize = 8;

// The bytes of the shortest record, and the most records of a half.
const LEAST: u64 = 16;

const MOST_RECORDS: u64 = 1_048_576;

// The bytes of a block.
const BLOCK: u64 = 4096;

/// Opens the archive on a disk, and prints its content and that it is sound, or where it is damaged; and returns the disk. With
/// `sees_images` it also reads each image, and prints whether its headers and notes are sound, or the first bad field: that takes
/// as much memory as the longest image has bytes. The disk is only read.
pub fn check_archive<D: Disk, O: Output>(
    alloc: Global,
    disk: D,
    sees_images: bool,
    output: &mut O,
) -> (Result<(), CheckFault>, D)
    ensures { ChecksOnDisk D.Disk sees_images (O.taken output.old) (O.taken output.new) (O.failures output.old) (O.failures output.new) disk result.0 result.1 }
{
    match Archive::open(alloc, disk, Settings { limit: 0 }) {
        Ok(archive) => {
            let mut archive = archive;
            let told = print_archive(&mut archive, sees_images, output);
            let disk = archive.close();
            (told, disk)
        }
        Err((fault, disk)) => {
            let mut disk = disk;
            print_damage(&mut disk, fault, output);
            (Err(CheckFault::Open(fault)), disk)
        }
    }
}

// Prints the content of an archive.
fn print_archive<D: Disk, O: Output>(
    archive: &mut Archive<D>,
    sees_images: bool,
    output: &mut O,
) -> Result<(), CheckFault>
    requires runs { archive.old.stopped ≡ false }
    ensures told { ToldOf D.Disk archive.old sees_images (O.taken output.old) (O.taken output.new) (O.failures output.old) (O.failures output.new) result archive.new }
    ensures quiet { OnlyReads D.Disk archive.old.disk archive.new.disk }
{
    let mut reply = Reply::new(output);
    let told = print_holdings(archive, sees_images, &mut reply);
    let sent = reply.finish();
    check_end(sent, told)
}

// The answer, by whether all of the text was written and by its end.
fn check_end(
    sent: Result<(), StreamFault>,
    told: Result<(), ArchiveFault>,
) -> Result<(), CheckFault>
    ensures { result ≡ check_end sent told }
{
    if sent.is_err() {
        return Err(CheckFault::Output);
    }
    match told {
        Ok(()) => Ok(()),
        Err(fault) => Err(CheckFault::Archive(fault)),
    }
}

fn print_holdings<D: Disk, O: Output>(
    archive: &mut Archive<D>,
    sees_images: bool,
    reply: &mut Reply<'_, O>,
) -> Result<(), ArchiveFault>
    requires runs { archive.old.stopped ≡ false }
    ensures states { PrintsReply (printing O.Output reply.old reply.new) (λ text. PrintsHoldings D.Disk archive.old sees_images text result archive.new) }
    ensures quiet { OnlyReads D.Disk archive.old.disk archive.new.disk }
{
    let version = archive.version()?;
    let count = archive.cases()?.len();
    let space = archive.free_blocks()?;
    print_facts(reply, version, count as u64, space);
    if let Err(fault) = print_seen(archive, sees_images, count, reply) {
        return Err(fault);
    }
    reply.print(b"sound\n");
    Ok(())
}

// Prints the verdicts on the images, if they are asked for.
fn print_seen<D: Disk, O: Output>(
    archive: &mut Archive<D>,
    sees_images: bool,
    count: usize,
    reply: &mut Reply<'_, O>,
) -> Result<(), ArchiveFault>
    requires runs { archive.old.stopped ≡ false }
    requires all { count ≡ length (state_of archive.old).cases }
    ensures states { PrintsReply (printing O.Output reply.old reply.new) (λ text. PrintsImages D.Disk archive.old (cases_seen (state_of archive.old) sees_images) text result archive.new) }
    ensures quiet { OnlyReads D.Disk archive.old.disk archive.new.disk }
{
    if !sees_images {
        return Ok(());
    }
    print_images(archive, count, reply)
}

// Prints the verdict on the image of each case, in the order of their numbers.
fn print_images<D: Disk, O: Output>(
    archive: &mut Archive<D>,
    count: usize,
    reply: &mut Reply<'_, O>,
) -> Result<(), ArchiveFault>
    requires runs { archive.old.stopped ≡ false }
    requires all { count ≡ length (state_of archive.old).cases }
    ensures states { PrintsReply (printing O.Output reply.old reply.new) (λ text. PrintsImages D.Disk archive.old (state_of archive.old).cases text result archive.new) }
    ensures quiet { OnlyReads D.Disk archive.old.disk archive.new.disk }
{
    for place in 0..count {
        see_image(archive, place, reply)?;
    }
    Ok(())
}

// Reads the image of a case, and prints the verdict on it. It takes as much memory as the image has bytes.
fn see_image<D: Disk, O: Output>(
    archive: &mut Archive<D>,
    place: usize,
    reply: &mut Reply<'_, O>,
) -> Result<(), ArchiveFault>
    requires runs { archive.old.stopped ≡ false }
    ensures states { (c : Case) → slice_get (state_of archive.old).cases place ≡ Some c
        → PrintsReply (printing O.Output reply.old reply.new) (λ text. PrintsImage D.Disk archive.old c text result archive.new) }
    ensures runs { OnOk result (archive.new.stopped ≡ false) }
    ensures state { OnOk result (state_of archive.new ≡ state_of archive.old) }
    ensures quiet { OnlyReads D.Disk archive.old.disk archive.new.disk }
{
    let Some((seq, kind)) = case_at(archive, place)? else {
        return Ok(());
    };
    let image = archive.image(seq)?;
    print_verdict(reply, seq, verdict_of(kind, &image));
    Ok(())
}

// The number and the kind of the case at a place of the list.
fn case_at<D: Disk>(archive: &Archive<D>, place: usize) -> Result<Option<(u32, Kind)>, ArchiveFault>
    requires { archive.now.stopped ≡ false }
    ensures { result ≡ Ok (option_map case_words (slice_get (state_of archive.now).cases place)) }
{
    match archive.cases()?.get(place) {
        Some(entry) => Ok(Some((entry.seq, entry.kind))),
        None => Ok(None),
    }
}

// Prints the place of the first bad field, if there is one.
fn print_damage<D: Disk, O: Output>(disk: &mut D, fault: OpenFault, output: &mut O)
    ensures told { (text : List ℕ) × (sent : Result (Unit {0}) StreamFault) × IsDamageLine fault text × IsDelivered (O.taken output.old) (O.failures output.old) (O.taken output.new) (O.failures output.new) text sent }
    ensures quiet { OnlyReads D.Disk disk.old disk.new }
{
    let OpenFault::Damaged { at, .. } = fault else {
        return;
    };
    let Ok(Some(shape)) = shape_on(disk) else {
        return;
    };
    let place = place_of(disk, shape, at);
    print_line(output, at / BLOCK, place);
}

// Prints the place of a block, and sends the line.
fn print_line<O: Output>(output: &mut O, block: u64, place: Place)
    ensures { (sent : Result (Unit {0}) StreamFault) × IsDelivered (O.taken output.old) (O.failures output.old) (O.taken output.new) (O.failures output.new) (place_line block place) sent }
{
    let mut reply = Reply::new(output);
    print_place(&mut reply, block, place);
    let _ = reply.finish();
}

// The part of the archive that a byte of the journal, or of the superblock, belongs to.
fn place_of<D: Disk>(disk: &mut D, shape: Shape, at: u64) -> Place
    ensures quiet { OnlyReads D.Disk disk.old disk.new }
{
    if at < BLOCK {
        return Place::Superblock;
    }
    let half = if at < shape.half_start(Half::B) {
        Half::A
    } else {
        Half::B
    };
    let records = shape.half_start(half) + HEADER;
    if at < records {
        return Place::Header(half);
    }
    Place::Record(half, record_at(disk, records, at))
}

// The number of the record that has a byte, of those from a place on, by the length that each has.
fn record_at<D: Disk>(disk: &mut D, records: u64, at: u64) -> u64
    requires { records ≤ at }
    ensures quiet { OnlyReads D.Disk disk.old disk.new }
{
    let mut number = 1;
    let mut place = records;
    for _ in 0..MOST_RECORDS {
        let length = record_length(disk, place);
        if length < LEAST || at - place < length {
            return number;
        }
        place += length;
        number += 1;
    }
    number
}

// The length that the record at a place has; 0 if it can't be read.
fn record_length<D: Disk>(disk: &mut D, place: u64) -> u64
    ensures quiet { OnlyReads D.Disk disk.old disk.new }
{
    let mut head = [0u8; HEAD];
    if disk.length().saturating_sub(place) < HEAD as u64 {
        return 0;
    }
    match disk.read_at(place, &mut head) {
        Ok(()) => u64::from(u32::from_le_bytes([head[4], head[5], head[6], head[7]])),
        Err(_) => 0,
    }
}
