// Why a file has not got its name.
ghost use Rattle.std.specs.Prelude.{◌≡◌};
ghost use Rattle.disk_model.specs.declared.file_fault.FileFault.{FileFault};
ghost use Rattle.whole_files.specs.declared.faults.NameFault.TheVariants as name_faults;

use disk_model::FileFault;
use std::io;

/// Why a file has not got its name for good.
#[derive(Clone, Copy, PartialEq, Eq)]
pub enum NameFault {
    /// It has not got it, and is gone.
    Unnamed(FileFault),
    /// Another file is under its name, or under PATH.part.
    Exchanged,
    /// It has it, and is whole there. The removal of its other name or the sync of its
    /// directory failed, with this number of the system's error (errno(3)), if there is one.
    Named(Option<i32>),
}

impl From<io::Error> for NameFault {
    ghost from_gives = { λ error fault. (why : FileFault) × (fault ≡ name_faults.Unnamed why) };

    fn from(error: io::Error) -> NameFault {
        NameFault::Unnamed(FileFault::from(error))
    }
}
