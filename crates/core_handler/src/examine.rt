// A quick look at a case that was stored.
ghost use Rattle.std.specs.Prelude.{◌≡◌, ◌≤◌, Some};
ghost use Rattle.case_journal.specs.Viewing.{OnlyReads};
ghost use Rattle.intake.specs.Parts.{state_of};
ghost use Rattle.journal_layout.specs.Case.{Case};
ghost use Rattle.journal_layout.specs.Soundness.{case_numbered};

use archive_files::Collected;
use core_checks::{UnreadNotes, unread_notes, whole_length};
use disk_model::Disk;
use elf_view::{Elf, Want};
use image_replies::{CoreImage, print_core_fault, print_elf_fault};
use intake::{Archive, Settings};
use journal_layout::Kind;
use script_streams::Reply;
use std::alloc::Global;

// RISC-V, as the field e_machine of an ELF file names it.
const EM_RISCV: u16 = 243;

// How many bytes of an image show its machine.
const HEAD: usize = 20;

// How many bytes of an image are looked at.
const FRONT: u64 = 65_536;

// The look at a case.
#[derive(Drop)]
pub(crate) struct Seen {
    // How many bytes its image has.
    pub(crate) length: u64,
    // The signal that ended the process, or 0.
    pub(crate) signal: u32,
    // The part of its image that can't be read, in words; empty if all can, or if it could not be examined.
    trouble: Collected,
    // How many bytes its image would have, if it is a core that was cut on its way.
    whole: Option<u64>,
}

// The look at an image.
#[derive(Drop)]
struct Sight {
    trouble: Collected,
    whole: Option<u64>,
}

// Machines that cores are likely to come from, by e_machine.
static MACHINES: [(u16, &'static [u8]); 6] = [
    (3, b" (80386)"),
    (8, b" (MIPS)"),
    (21, b" (PowerPC 64)"),
    (22, b" (S390)"),
    (62, b" (x86-64)"),
    (183, b" (AArch64)"),
];

// The name of a machine, in brackets.
fn machine_name(machine: u16) -> &'static [u8] {
    for (number, name) in &MACHINES {
        if *number == machine {
            return *name;
        }
    }
    b""
}

impl Seen {
    // The part of the image that can't be read, in words: it is no ELF file, or of another machine, or a field has a fault, or its
    // notes are not read as they are meant. Nothing is said if its headers and notes are sound and read, or could not be looked at.
    pub(crate) fn trouble(&self) -> &[u8] {
        self.trouble.text()
    }

    // Whether it is a core that was cut on its way, in words; empty if it was not, or if that is not known.
    pub(crate) fn cut(&self, alloc: Global) -> Collected {
        let mut words = Collected::new(alloc);
        let mut reply = Reply::new(&mut words);
        if let Some(whole) = self.whole {
            reply.print(b"is cut: ");
            reply.print_decimal(u128::from(self.length));
            reply.print(b" of ");
            reply.print_decimal(u128::from(whole));
            reply.print(b" bytes");
        }
        let _ = reply.finish();
        words
    }
}

// Says in words if an image that begins so can't be read as an ELF file of RISC-V 64. Returns whether it did.
fn print_kind(reply: &mut Reply<'_, Collected>, front: &[u8]) -> bool {
    if front.len() < HEAD || !front.starts_with(b"\x7fELF") {
        reply.print(b"is no ELF file");
        return true;
    }
    let machine = u16::from_le_bytes([front[18], front[19]]);
    if machine == EM_RISCV {
        return false;
    }
    reply.print(b"is of machine ");
    reply.print_decimal(u128::from(machine));
    reply.print(machine_name(machine));
    reply.print(b": corekeep answers questions about RISC-V 64");
    true
}

// The part that can't be read of an image that starts with these bytes, in words, by its kind alone.
fn kind_trouble(alloc: Global, front: &[u8]) -> Collected {
    let mut words = Collected::new(alloc);
    let mut reply = Reply::new(&mut words);
    print_kind(&mut reply, front);
    let _ = reply.finish();
    words
}

// The first field of an image that has a fault, in words; empty if no field has one.
fn field_trouble(alloc: Global, kind: Kind, image: &[u8]) -> Collected {
    let fault = match kind {
        Kind::Core => core_fault(alloc, image),
        Kind::Exec => exec_fault(alloc, image),
    };
    let mut words = Collected::new(alloc);
    let mut reply = Reply::new(&mut words);
    if let Some(reason) = fault.text().strip_prefix(b"no ".as_slice()) {
        print_field(
            &mut reply,
            kind,
            reason.trim_ascii_end(),
            unread_in(kind, image),
        );
    }
    let _ = reply.finish();
    words
}

// Why notes of an image are not read as they are meant, if it is a core.
fn unread_in(kind: Kind, image: &[u8]) -> Option<UnreadNotes> {
    match kind {
        Kind::Core => unread_notes(image),
        Kind::Exec => None,
    }
}

// That the threads of an image are not read, in words; empty if they are.
fn thread_trouble(alloc: Global, kind: Kind, image: &[u8]) -> Collected {
    let mut words = Collected::new(alloc);
    let mut reply = Reply::new(&mut words);
    if unread_in(kind, image) == Some(UnreadNotes::Linux) {
        reply.print(b"has threads in notes that are named LINUX: only those named CORE are read");
    }
    let _ = reply.finish();
    words
}

// The part of an image that can't be read, in words: its first field that has a fault, or its threads.
fn image_trouble(alloc: Global, kind: Kind, image: &[u8]) -> Collected {
    let words = field_trouble(alloc, kind, image);
    if words.text().is_empty() {
        return thread_trouble(alloc, kind, image);
    }
    words
}

// Names the field that has a fault. If that is the file's type, the case may be of the wrong kind. If it is one of notes that are padded
// otherwise than those that are read, nothing need be damaged.
fn print_field(
    reply: &mut Reply<'_, Collected>,
    kind: Kind,
    field: &[u8],
    unread: Option<UnreadNotes>,
) {
    if unread == Some(UnreadNotes::Padded) {
        reply.print(b"has notes that are padded to 8 bytes: only those padded to 4 are read: ");
        reply.print(field);
        return;
    }
    if field != b"e_type".as_slice() {
        reply.print(b"is damaged or cut: ");
        reply.print(field);
        return;
    }
    match kind {
        Kind::Core => reply.print(b"is no core file (e_type): store an executable by --exec NAME"),
        Kind::Exec => reply.print(b"is no executable (e_type): store a core file without --exec"),
    }
}

// The reply to a line over a core that has a fault; empty if it has none.
fn core_fault(alloc: Global, image: &[u8]) -> Collected {
    let mut told = Collected::new(alloc);
    let mut reply = Reply::new(&mut told);
    if let Err(fault) = CoreImage::read(image) {
        print_core_fault(&mut reply, fault);
    }
    let _ = reply.finish();
    told
}

// The same of an executable.
fn exec_fault(alloc: Global, image: &[u8]) -> Collected {
    let mut told = Collected::new(alloc);
    let mut reply = Reply::new(&mut told);
    if let Err(fault) = Elf::read(image, Want::Exec) {
        print_elf_fault(&mut reply, fault);
    }
    let _ = reply.finish();
    told
}

// Looks at a case of the archive on a disk, and hands the disk back. The disk is only read.
pub(crate) fn look_at_case<D: Disk>(alloc: Global, disk: D, seq: u32) -> (Option<Seen>, D)
    ensures quiet { OnlyReads D.Disk disk result.1 }
{
    match Archive::open(alloc, disk, Settings { limit: 0 }) {
        Ok(archive) => {
            let mut archive = archive;
            let seen = see_case(alloc, seq, &mut archive);
            let disk = archive.close();
            (seen, disk)
        }
        Err((_, disk)) => (None, disk),
    }
}

fn see_case<D: Disk>(alloc: Global, seq: u32, archive: &mut Archive<D>) -> Option<Seen>
    ensures quiet { OnlyReads D.Disk archive.old.disk archive.new.disk }
{
    let entry = archive.case(seq).ok()?;
    let length = entry.length;
    let signal = entry.signal;
    let kind = entry.kind;
    let sight = see_image(alloc, seq, kind, length, archive).unwrap_or(Sight {
        trouble: Collected::new(alloc),
        whole: None,
    });
    Some(Seen {
        length,
        signal,
        trouble: sight.trouble,
        whole: sight.whole,
    })
}

// How many bytes a core of so many that begins so would have, if it was cut.
fn cut_whole(kind: Kind, length: u64, front: &[u8]) -> Option<u64> {
    match (kind, whole_length(front)) {
        (Kind::Core, Some(whole)) if length < whole => Some(whole),
        _ => None,
    }
}

// The look at the image of a case, by its first bytes.
fn see_image<D: Disk>(
    alloc: Global,
    seq: u32,
    kind: Kind,
    length: u64,
    archive: &mut Archive<D>,
) -> Option<Sight>
    requires fits { (c : Case) → case_numbered seq (state_of archive.old).cases ≡ Some c → length ≤ c.len }
    ensures quiet { OnlyReads D.Disk archive.old.disk archive.new.disk }
{
    let front = read_front(alloc, seq, length, archive)?;
    let whole = cut_whole(kind, length, &front);
    let unseen = Collected::new(alloc);
    let trouble = see_trouble(alloc, seq, kind, length, &front, archive).unwrap_or(unseen);
    Some(Sight { trouble, whole })
}

// The part of the image of a case that can't be read, in words, if it begins so. If a field of its first bytes has a fault, and there are
// more, the field may be one of those that are missing: the whole image is read then.
fn see_trouble<D: Disk>(
    alloc: Global,
    seq: u32,
    kind: Kind,
    length: u64,
    front: &[u8],
    archive: &mut Archive<D>,
) -> Option<Collected>
    ensures quiet { OnlyReads D.Disk archive.old.disk archive.new.disk }
{
    let words = kind_trouble(alloc, front);
    if !words.text().is_empty() {
        return Some(words);
    }
    let words = image_trouble(alloc, kind, front);
    if length <= FRONT || field_trouble(alloc, kind, front).text().is_empty() {
        return Some(words);
    }
    let image = read_whole(seq, archive)?;
    Some(image_trouble(alloc, kind, &image))
}

// The first bytes of the image of a case.
fn read_front<D: Disk>(
    alloc: Global,
    seq: u32,
    length: u64,
    archive: &mut Archive<D>,
) -> Option<Vec<u8>>
    requires fits { (c : Case) → case_numbered seq (state_of archive.old).cases ≡ Some c → length ≤ c.len }
    ensures quiet { OnlyReads D.Disk archive.old.disk archive.new.disk }
{
    let mut front = vec![in alloc; 0u8; length.min(FRONT) as usize].ok()?;
    archive.image_part(seq, 0, &mut front).ok()?;
    Some(front)
}

// All bytes of it.
fn read_whole<D: Disk>(seq: u32, archive: &mut Archive<D>) -> Option<Vec<u8>>
    ensures quiet { OnlyReads D.Disk archive.old.disk archive.new.disk }
{
    archive.image(seq).ok()
}
