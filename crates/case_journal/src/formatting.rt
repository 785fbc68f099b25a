// Making an archive with no case.
ghost use Rattle.std.specs.Prelude.{◌≡◌, ◌↔◌, ◌≤◌, false, ◌∷◌, ◌++◌, [], drop, length, IsTrue, OnOk, Err};
ghost use Rattle.disk_model.specs.Disk.{HasCause};
ghost use Rattle.disk_model.specs.Moments.{IsSettled};
ghost use Rattle.disk_model.specs.Keeping.{KeepsDisk};
ghost use Rattle.journal_layout.specs.Layout.{superblock, half_header, disk_length, IsWithinLimits};
ghost use Rattle.journal_layout.specs.Front.{is_shape_of};
ghost use Rattle.journal_layout.specs.Stands.{Stands};
ghost use Rattle.case_journal.specs.Formatted.{HasFront, superblock_block};
ghost use Rattle.journal_layout.specs.Standing.{fresh};

use crate::FormatFault;
use crate::front::{MAGIC, VERSION, is_shape_of};
use byteorder::{ByteOrder, LittleEndian};
use disk_model::{Disk, DiskFault, write_stable};
use journal_layout::{BLOCK, Half, Shape};
use journal_records::GATE_OPEN;

// The superblock's bytes that are looked at, its gate closed.
#[tactic(auto, unfolding(journal_layout::specs::Layout::superblock, journal_layout::specs::Layout::number_bytes))]
fn superblock_bytes(shape: Shape) -> [u8; 24]
    ensures { result ≡ 0 ∷ superblock shape }
{
    let mut bytes = [0; 24];
    bytes[8..16].copy_from_slice(MAGIC);
    LittleEndian::write_u32(&mut bytes[16..], shape.half_blocks);
    LittleEndian::write_u32(&mut bytes[20..], shape.data_blocks);
    bytes
}

// Puts the bytes of head at the front of a block.
fn put_front(block: &mut [u8], head: &[u8])
    requires { length head.now ≤ length block.old }
    ensures { block.new ≡ head.now ++ drop (length head.now) block.old }
{
    block[..head.len()].copy_from_slice(head);
}

// The superblock's block, its gate closed.
fn superblock_block(shape: Shape) -> [u8; 4096]
    ensures block { result ≡ superblock_block 0 shape }
    ensures size { length result ≡ 4096 }
{
    let mut block = [0; 4096];
    put_front(&mut block, &superblock_bytes(shape));
    block
}

// The first half's header of version 1 and generation 1, its gate open, and the closed gate of its first record.
#[tactic(auto, unfolding(journal_layout::specs::Layout::half_header, journal_layout::specs::Layout::number_bytes))]
fn first_header() -> [u8; 33]
    ensures bytes { result ≡ 165 ∷ half_header 1 1 ++ 0 ∷ [] }
    ensures size { length result ≡ 33 }
{
    let mut bytes = [0; 33];
    bytes[0] = GATE_OPEN;
    LittleEndian::write_u32(&mut bytes[4..], VERSION);
    LittleEndian::write_u64(&mut bytes[8..], 1);
    bytes
}

// Writes the superblock, its gate closed, and both halves' headers, and makes them stable.
fn write_headers<D: Disk>(disk: &mut D, shape: Shape) -> Result<(), DiskFault>
    requires limits { IsWithinLimits shape }
    requires size { D.size disk.old ≡ disk_length shape }
    ensures headers { IsTrue (D.is_honest disk.old)
        → OnOk result (HasFront 0 shape (D.seen disk.new)) }
    ensures cause { HasCause (D.failures disk.old) (D.failures disk.new) result }
    ensures honesty { D.is_honest disk.new ≡ D.is_honest disk.old }
    ensures size { D.size disk.new ≡ D.size disk.old }
{
    disk.write_at(0, &superblock_block(shape))?;
    disk.write_at(BLOCK, &first_header())?;
    write_stable(disk, shape.half_start(Half::B), &[0])?;
    Ok(())
}

/// Makes an archive of this shape with no case on the disk. Answers `BadShape` if the shape is outside its limits or is not
/// that of the disk, and then nothing was written; else `Disk` if the disk failed. Until it answers `Ok`, nothing is
/// promised of the disk: it is done again. It takes no memory.
pub fn format<D: Disk>(disk: &mut D, shape: Shape) -> Result<(), FormatFault>
    ensures shape { (result ≡ Err FormatFault.BadShape) ↔ (is_shape_of (D.size disk.old) shape
        ≡ false) }
    ensures untouched { result ≡ Err FormatFault.BadShape → disk.new ≡ disk.old }
    // On an honest disk, the bytes are then an archive with no case, and a crash leaves them so.
    ensures made { IsTrue (D.is_honest disk.old) → OnOk result (Stands (D.seen disk.new)
        (fresh shape Half.A 1 1)) }
    // All that the layout fixes of it is there: the superblock with zeros to its block's end, and the halves' headers.
    ensures written { IsTrue (D.is_honest disk.old) → OnOk result (HasFront 165 shape (D.seen disk.new)) }
    ensures stable { IsTrue (D.is_honest disk.old) → OnOk result (IsSettled D.Disk disk.new) }
    ensures disk { KeepsDisk D.Disk disk.old disk.new (result ≡ Err FormatFault.Disk) }
{
    if !is_shape_of(disk.length(), shape) {
        return Err(FormatFault::BadShape);
    }
    write_headers(disk, shape)?;
    write_stable(disk, 0, &[GATE_OPEN])?;
    Ok(())
}
