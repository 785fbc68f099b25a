// A file of the spool that is made for a core.
ghost use Rattle.std.specs.Prelude.{◌≡◌, true, false, IfOk};
ghost use Rattle.whole_files.specs.Whole.{IsMade};

use crate::spool_paths::SpoolPaths;
use disk_model::FileFault;
use handler_files::{NotSpooled, Piece, Room, begin_part, discard, receive};
use std::fs::File;
use std::rt::Files;
use whole_files::{NewFile, PartFile, remove};

// A file that is made for a core, and has its lock. The words of the core are in the spool already.
#[derive(Drop)]
pub(crate) struct Berth<'a, R: Files<File = File>> {
    pub(crate) file: PartFile<'a, R>,
    // The same file, open once more, so that its bytes can be read.
    pub(crate) back: File,
    // The bytes of the core that were read and are not in the file.
    pub(crate) piece: Piece,
}

// Makes the file of a core, and that of its words with this text.
pub(crate) fn make_berth<'a, R: AllocGlobal + Files<File = File>>(
    rt: &'a R,
    paths: &SpoolPaths,
    text: &[u8],
) -> Result<Berth<'a, R>, NotSpooled>
    ensures made { IfOk result (λ b. IsMade (⟦<PartFile<'a, R> as NewFile>⟧.facts b.file)) }
    ensures unsynced { IfOk result (λ b. (⟦<PartFile<'a, R> as NewFile>⟧.facts b.file).is_synced ≡ false) }
{
    let mut piece = Piece::new(rt.alloc()).map_err(no_memory)?;
    let mut file = PartFile::new(rt.alloc(), rt, paths.core.as_str()).map_err(no_memory)?;
    begin_part(&mut file).map_err(NotSpooled::File)?;
    let opened = file.writer().and_then(File::try_clone);
    let kept = match &opened {
        Ok(_) => keep_words(rt, paths.words.as_str(), text, &mut piece),
        Err(_) => Err(NotSpooled::File(FileFault::Open)),
    };
    match (opened, kept) {
        (Ok(back), Ok(())) => Ok(Berth { file, back, piece }),
        (_, kept) => {
            remove(&mut file);
            Err(kept.err().unwrap_or(NotSpooled::File(FileFault::Open)))
        }
    }
}

fn no_memory(_: std::alloc::AllocError) -> NotSpooled {
    NotSpooled::File(FileFault::OutOfMemory)
}

// Makes the file of a core's words, which is durable then.
fn keep_words<R: AllocGlobal + Files<File = File>>(
    rt: &R,
    path: &str,
    text: &[u8],
    piece: &mut Piece,
) -> Result<(), NotSpooled> {
    let mut file = PartFile::new(rt.alloc(), rt, path).map_err(no_memory)?;
    begin_part(&mut file).map_err(NotSpooled::File)?;
    let mut text = text;
    let room = Room {
        most: u64::MAX,
        left: None,
    };
    match receive(&mut file, &mut text, piece, room) {
        Ok(_) => Ok(()),
        Err(unspooled) => {
            discard(&mut file, unspooled.why);
            Err(unspooled.why)
        }
    }
}
