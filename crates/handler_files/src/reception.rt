// A core is taken into a file of the spool.
ghost use Rattle.std.specs.Prelude.{◌≡◌, ℕ, List, Some, false, true, take, OnOk, IfOk, IfErr};
ghost use Rattle.whole_files.specs.Whole.{IsMade};
ghost use Rattle.handler_files.specs.Reception.{TakenSo, LeftSo, IsTakenFrom, IsLeftFrom, ceiling_of, has_room};

use crate::piece::Piece;
use crate::stream::{End, pass_on};
use disk_model::FileFault;
use std::io::{Chain, Read, Take};
use whole_files::{NameFault, NewFile, give_name, make, remove};

/// Why a core is not in the spool under its own name.
#[derive(Clone, Copy, PartialEq, Eq)]
pub enum NotSpooled {
    /// Its file could not be made or opened.
    File(FileFault),
    /// The stream could not be read.
    Unread,
    /// Its file could not be written.
    Unwritten(FileFault),
    /// The spool has no room for it.
    Full,
    /// Its file could not be synced.
    Unsynced,
    /// Its file has not got its name for good.
    Name(NameFault),
}

/// A core that is not in the spool: so many of its first bytes are in the file that was made, the next ones are in the piece, and the others
/// are still to come.
#[derive(Clone, Copy, PartialEq, Eq)]
pub struct Unspooled {
    /// How many bytes were written.
    pub bytes: u64,
    /// Why it is not.
    pub why: NotSpooled,
}

/// How many bytes are taken.
#[derive(Clone, Copy, PartialEq, Eq)]
pub struct Room {
    /// Of a core: no more of it is read.
    pub most: u64,
    /// In the spool: a core that has more is not kept there.
    pub left: Option<u64>,
}

impl Room {
    // How many bytes are read at most: one more than fit shows that there is no room.
    fn ceiling(self) -> u64
        ensures { result ≡ ceiling_of self }
    {
        match self.left {
            Some(left) if left < self.most => left + 1,
            _ => self.most,
        }
    }

    // Whether so many bytes fit.
    fn holds(self, bytes: u64) -> bool
        ensures { result ≡ has_room self bytes }
    {
        match self.left {
            Some(left) => bytes <= left,
            None => true,
        }
    }
}

/// Makes an empty file under PATH.part, for its owner alone, and locks it. If a
/// file is there already it stays, and so does a file that could not be locked.
pub fn begin_part<P: NewFile>(file: &mut P) -> Result<(), FileFault>
    ensures made { OnOk result (IsMade (P.facts file.new)) }
    ensures locked { OnOk result ((P.facts file.new).is_locked ≡ true) }
    ensures unsynced { OnOk result ((P.facts file.new).is_synced ≡ false) }
{
    make(file)?;
    file.try_lock()
}

/// Takes a stream into a file that was made, syncs it, and gives it its name. Answers how many bytes it has. Of a stream with more bytes than
/// are wanted it has as many as are wanted.
///
/// # Errors
///
/// However it fails, no byte of the stream is lost, and the file has not got its name, but for `Name` of `NameFault::Named`.
pub fn receive<P: NewFile, I: Read>(
    file: &mut P,
    input: &mut I,
    piece: &mut Piece,
    room: Room,
) -> Result<u64, Unspooled>
    requires made { IsMade (P.facts file.old) }
    requires unsynced { (P.facts file.old).is_synced ≡ false }
    ensures taken { TakenSo result (P.facts file.new) }
    ensures all { (xs : List ℕ) → I.remaining input.old ≡ Some xs → IfOk result (λ n. IsTakenFrom xs n room (I.remaining input.new)) }
    ensures rest { (xs : List ℕ) → I.remaining input.old ≡ Some xs → IfErr result (λ u. IsLeftFrom xs u.bytes piece.new (I.remaining input.new)) }
{
    piece.clear();
    let passed = match file.writer() {
        Ok(writer) => {
            let mut writer = writer;
            pass_on(input, &mut writer, piece, room.ceiling())
        }
        Err(error) => {
            let why = NotSpooled::File(FileFault::from(error));
            return Err(Unspooled { bytes: 0, why });
        }
    };
    let bytes = passed.bytes;
    let why = match passed.end {
        End::Unread => NotSpooled::Unread,
        End::Unwritten(fault) => NotSpooled::Unwritten(fault),
        End::Whole | End::Most if !room.holds(bytes) => NotSpooled::Full,
        End::Whole | End::Most => return keep(file, bytes),
    };
    Err(Unspooled { bytes, why })
}

// Syncs a file that has so many bytes, and gives it its name.
fn keep<P: NewFile>(file: &mut P, bytes: u64) -> Result<u64, Unspooled>
    requires made { IsMade (P.facts file.old) }
    ensures taken { TakenSo result (P.facts file.new) }
    ensures count { IfOk result (λ n. n ≡ bytes) }
    ensures uncut { IfErr result (λ u. u.bytes ≡ bytes) }
{
    if file.sync().is_err() {
        let why = NotSpooled::Unsynced;
        return Err(Unspooled { bytes, why });
    }
    match give_name(file) {
        Ok(()) => Ok(bytes),
        Err(fault) => {
            let why = NotSpooled::Name(fault);
            Err(Unspooled { bytes, why })
        }
    }
}

/// Removes the file of a core that is not in the spool for this reason, unless that was done.
pub fn discard<P: NewFile>(file: &mut P, why: NotSpooled)
    requires left { LeftSo why (P.facts file.old) }
{
    match why {
        NotSpooled::Name(_) => {}
        NotSpooled::File(_)
        | NotSpooled::Unread
        | NotSpooled::Unwritten(_)
        | NotSpooled::Full
        | NotSpooled::Unsynced => remove(file),
    }
}

/// The whole stream of a core that is not in the spool: the bytes of its file,
/// the bytes that were read of it besides, and those that are still to come.
pub fn rest_of<'a, F: Read, I: Read>(
    front: F,
    bytes: u64,
    piece: &'a [u8],
    input: &'a mut I,
) -> Chain<Chain<Take<F>, &'a [u8]>, &'a mut I>
    ensures whole { (xs ys : List ℕ) → F.remaining front ≡ Some (take bytes xs) → I.remaining input.entry.now ≡ Some ys
        → IsLeftFrom xs bytes piece.entry.now (Some ys) → ⟦<Chain<Chain<Take<F>, &'a [u8]>, &'a mut I> as Read>⟧.remaining result ≡ Some xs }
{
    front.take(bytes).chain(piece).chain(input)
}
