// The calls on a file that is made.
ghost use Rattle.std.specs.Prelude.{◌≡◌, ◌||◌, true, false, is_ok, OnOk};
ghost use Rattle.whole_files.specs.Calls.{just_made, left_behind, unlooked, written, locked_if, synced_if, seen_at_part, seen_at_path, seen_old, linked_so, renamed_if, replaced_if, removed, folder_synced_if};
ghost use Rattle.whole_files.specs.declared.facts.FileFacts.{FileFacts};

use crate::facts::FileFacts;
use disk_model::{DiskFault, FileDisk, FileFault};
use std::alloc::Global;
use std::fs::{File, Metadata};
use std::io;

/// The outcome of giving a file a second name.
#[derive(Clone, Copy)]
pub enum Linked {
    /// It has it.
    Named,
    /// A file has that name.
    Taken,
    /// It could not be given, and no file has that name. Some file systems have no links.
    Impossible,
}

/// A file that is made under PATH.part and is called PATH only once it is whole. Each method is one call of the operating system, or one look
/// at a name, which compares the file under the name with the open one. A `requires` names the calls that must come before, and a clause
/// gives the known facts about the file after the call. So code that makes a file by these calls can't make them in another order.
pub trait NewFile {
    /// The known facts about the file.
    ghost facts: { Self → FileFacts };

    /// Whether there is a file under PATH; if PATH is a link, whether the file that the link names exists.
    fn is_taken(&self) -> bool;

    /// Looks at the file under PATH.part. No link is followed.
    fn look_left(&self) -> io::Result<Metadata>;

    /// Opens the file under PATH.part that was looked at. Answers `InvalidInput` if another one is there.
    fn open_left(&mut self, looked: &Metadata) -> io::Result<()>
        ensures opened { OnOk result (facts self.new ≡ left_behind) };

    /// Makes an empty file under PATH.part. Nothing that is there is opened, and no link followed.
    fn create(&mut self) -> io::Result<()>
        ensures made { OnOk result (facts self.new ≡ just_made) };

    /// Gives its owner the right to read and write it, and nobody else one, whatever the process masks.
    fn own_alone(&mut self) -> io::Result<()>
        ensures facts { facts self.new ≡ written (facts self.old) };

    /// Takes its lock alone, and never waits. Answers `Busy` if another process has it, and `Lock` if files have no locks there.
    fn try_lock(&mut self) -> Result<(), FileFault>
        ensures facts { facts self.new ≡ locked_if (is_ok result) (facts self.old) };

    /// Gives it this length.
    fn set_length(&mut self, length: u64) -> io::Result<()>
        ensures facts { facts self.new ≡ written (facts self.old) };

    /// Gives the file to its writer. Once it is synced it is not written any more.
    fn writer(&self) -> io::Result<&File>
        requires unsynced { (facts self.now).is_synced ≡ false };

    /// Whether it is known to have no bytes.
    fn is_empty(&self) -> bool;

    /// A disk in the file, which shares its lock. Whoever has the disk writes the file.
    fn disk(&mut self, alloc: Global) -> Result<FileDisk, FileFault>
        requires locked { (facts self.old).is_locked ≡ true }
        ensures facts { facts self.new ≡ written (facts self.old) };

    /// Makes its bytes, its owner and its rights durable.
    fn sync(&mut self) -> io::Result<()>
        requires good { (facts self.old).has_failed_sync ≡ false }
        ensures facts { facts self.new ≡ synced_if (is_ok result) (facts self.old) };

    /// Makes durable the bytes that the disk in it has written. If the
    /// disk has written nothing since its last sync, no call is made.
    fn sync_disk(&mut self, disk: &mut FileDisk) -> Result<(), DiskFault>
        requires good { (facts self.old).has_failed_sync ≡ false }
        ensures facts { facts self.new ≡ synced_if (is_ok result) (facts self.old) };

    /// Gives it the owner and the group of another file.
    fn give_owner(&mut self, about: &Metadata) -> io::Result<()>
        ensures facts { facts self.new ≡ written (facts self.old) };

    /// Gives its owner the rights that the owner of another file has, and nobody else any right.
    fn give_rights(&mut self, about: &Metadata) -> io::Result<()>
        ensures facts { facts self.new ≡ written (facts self.old) };

    /// Looks whether PATH.part names it.
    fn is_at_part(&mut self) -> bool
        ensures facts { facts self.new ≡ seen_at_part result (facts self.old) };

    /// Looks whether PATH names it.
    fn is_at_path(&mut self) -> bool
        ensures facts { facts self.new ≡ seen_at_path result (facts self.old) };

    /// Looks whether PATH names the other file, whose place it is to take.
    fn is_old_at_path(&mut self, old: &File) -> bool
        ensures facts { facts self.new ≡ seen_old result (facts self.old) };

    /// Gives the file under PATH.part the name PATH too, unless a file has it.
    fn link(&mut self) -> Linked
        requires synced { (facts self.old).is_synced ≡ true }
        requires looked { (facts self.old).looks.is_at_part ≡ true }
        ensures facts { facts self.new ≡ linked_so result (facts self.old) };

    /// Renames the file under PATH.part to PATH, on a file system without links, if no file had the name.
    fn rename(&mut self) -> io::Result<()>
        requires synced { (facts self.old).is_synced ≡ true }
        requires free { (facts self.old).looks.is_path_free ≡ true }
        ensures facts { facts self.new ≡ renamed_if (is_ok result) (facts self.old) };

    /// Renames the file under PATH.part to PATH, in the place of the other file.
    fn replace(&mut self) -> io::Result<()>
        requires synced { (facts self.old).is_synced ≡ true }
        requires old { (facts self.old).looks.is_old_at_path ≡ true }
        requires looked { (facts self.old).looks.is_at_part ≡ true }
        ensures facts { facts self.new ≡ replaced_if (is_ok result) (facts self.old) };

    /// Removes the name PATH.part. A file that was not made here must be locked: else another process may still write it.
    fn remove_part(&mut self) -> io::Result<()>
        requires looked { (facts self.old).looks.is_at_part ≡ true }
        requires own { ((facts self.old).is_made || (facts self.old).is_locked) ≡ true }
        ensures facts { facts self.new ≡ removed (facts self.old) };

    /// Makes the names in its directory durable.
    fn sync_folder(&mut self) -> io::Result<()>
        ensures facts { facts self.new ≡ folder_synced_if (is_ok result) (facts self.old) };
}
