// A file is made under PATH.part.
ghost use Rattle.std.specs.Prelude.{◌≡◌, false, OnOk};
ghost use Rattle.whole_files.specs.Calls.{just_made};
ghost use Rattle.whole_files.specs.Whole.{IsMade};

use crate::new_file::NewFile;
use disk_model::FileFault;
use std::io;
use std::io::ErrorKind;

/// Makes sure that a file can be made: PATH must not exist, and a file that an ended process has left under PATH.part is
/// removed. A process that still writes it keeps its lock: then the file is busy.
pub fn clear<P: NewFile>(file: &mut P) -> Result<(), FileFault> {
    if file.is_taken() {
        return Err(FileFault::Exists);
    }
    clear_part(file)
}

/// Removes a file that an ended process has left under PATH.part. A process that still writes it keeps its lock: then the file is
/// busy. A link, a pipe or a device is refused, and stays.
pub fn clear_part<P: NewFile>(file: &mut P) -> Result<(), FileFault> {
    let Some(looked) = if_there(file.look_left())? else {
        return Ok(());
    };
    if looked.is_dir() {
        return Err(FileFault::Folder);
    }
    if !looked.is_file() {
        return Err(FileFault::Special);
    }
    match if_there(file.open_left(&looked))? {
        Some(()) => remove_left(file),
        None => Ok(()),
    }
}

// The answer about a file, or `None` if the file does not exist.
fn if_there<T>(asked: io::Result<T>) -> Result<Option<T>, FileFault> {
    match asked {
        Ok(found) => Ok(Some(found)),
        Err(error) if error.kind() == ErrorKind::NotFound => Ok(None),
        Err(error) => Err(FileFault::from(error)),
    }
}

// Removes the file that is open, unless another process has it, or has removed it and made another one.
fn remove_left<P: NewFile>(file: &mut P) -> Result<(), FileFault> {
    file.try_lock()?;
    if file.is_at_part() {
        file.remove_part()?;
    }
    Ok(())
}

/// Makes an empty file under PATH.part, for its owner alone. Nothing that is there is opened, and no link followed.
pub fn make<P: NewFile>(file: &mut P) -> Result<(), FileFault>
    ensures made { OnOk result (P.facts file.new ≡ just_made) }
{
    file.create()?;
    // A new file's mode lacks the bits that the process masks.
    file.own_alone().map_err(|_| FileFault::Length)
}

/// Makes an empty file under PATH.part, for its owner alone, and has its lock, if files have locks there.
pub fn begin<P: NewFile>(file: &mut P) -> Result<(), FileFault>
    ensures made { OnOk result (IsMade (P.facts file.new)) }
    ensures unsynced { OnOk result ((P.facts file.new).is_synced ≡ false) }
{
    clear(file)?;
    make(file)?;
    let _ = file.try_lock();
    Ok(())
}
