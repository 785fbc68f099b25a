// A file that is whole gets its name.
ghost use Rattle.std.specs.Prelude.{◌≡◌, Bool, true, false, IfOk, OnErr};
ghost use Rattle.whole_files.specs.Whole.{IsMade, IsWritten, IsUnnamed, IsNamed, EndsSo, IsRenamedSo};

use crate::faults::NameFault;
use crate::new_file::{Linked, NewFile};
use disk_model::FileFault;
use std::fs::File;
use std::io;

/// Removes the file that is open, as long as PATH.part names it.
pub fn remove<P: NewFile>(file: &mut P)
    requires made { (P.facts file.old).is_made ≡ true }
    ensures gone { (P.facts file.new).is_let_go ≡ true }
    ensures name { (P.facts file.new).is_named ≡ (P.facts file.old).is_named }
    ensures replaced { (P.facts file.new).has_replaced ≡ (P.facts file.old).has_replaced }
{
    if file.is_at_part() {
        let _ = file.remove_part();
    }
}

/// Gives a file that is open, whole and synced its own name, and makes the name durable. A file that has come under PATH meanwhile stays:
/// then this one is removed.
pub fn give_name<P: NewFile>(file: &mut P) -> Result<(), NameFault>
    requires written { IsWritten (P.facts file.old) }
    ensures ends { EndsSo false result (P.facts file.new) }
{
    if !file.is_at_part() {
        return Err(NameFault::Exchanged);
    }
    match take_name(file) {
        Ok(removed) => keep_name(file, removed),
        Err(fault) => {
            remove(file);
            Err(NameFault::Unnamed(fault))
        }
    }
}

// Gives a file its name, and answers whether the removal of the other one succeeded. Some file systems have no links.
fn take_name<P: NewFile>(file: &mut P) -> Result<io::Result<()>, FileFault>
    requires written { IsWritten (P.facts file.old) }
    requires looked { (P.facts file.old).looks.is_at_part ≡ true }
    ensures named { IfOk result (λ removed. IsNamed false (P.facts file.new)) }
    ensures unnamed { OnErr result (IsUnnamed (P.facts file.new)) }
{
    match file.link() {
        Linked::Named => Ok(file.remove_part()),
        Linked::Taken => Err(FileFault::Exists),
        Linked::Impossible => {
            file.rename()?;
            Ok(Ok(()))
        }
    }
}

// Makes a file's name durable. It is made so even if its other name could not be removed.
fn keep_name<P: NewFile>(file: &mut P, removed: io::Result<()>) -> Result<(), NameFault>
    ensures ends { (takes_place : Bool) → IsNamed takes_place (P.facts file.old)
        → EndsSo takes_place result (P.facts file.new) }
{
    let kept = file.sync_folder();
    kept.and(removed)
        .map_err(|error| NameFault::Named(error.raw_os_error()))?;
    if file.is_at_path() {
        Ok(())
    } else {
        Err(NameFault::Exchanged)
    }
}

/// Replaces an open file by another one that is open and whole, and makes that durable. The new file gets the other's owner and the
/// rights that this owner has; nobody else gets a right. A stop leaves the one or the other under PATH. A third file that has come
/// under PATH meanwhile stays.
#[tactic(auto, using(crate::proofs::EndLemmas::let_go))]
pub fn take_place<P: NewFile>(file: &mut P, old: &File) -> Result<(), NameFault>
    requires made { IsMade (P.facts file.old) }
    ensures ends { EndsSo true result (P.facts file.new) }
{
    match replace(file, old) {
        Ok(()) => keep_name(file, Ok(())),
        Err(fault) => {
            remove(file);
            Err(fault)
        }
    }
}

#[tactic(auto, using(crate::proofs::EndLemmas::not_renamed))]
fn replace<P: NewFile>(file: &mut P, old: &File) -> Result<(), NameFault>
    requires made { IsMade (P.facts file.old) }
    ensures renamed { IsRenamedSo result (P.facts file.new) }
{
    let about = old.metadata()?;
    file.give_owner(&about)?;
    file.give_rights(&about)?;
    file.sync()?;
    if !file.is_old_at_path(old) {
        return Err(NameFault::Exchanged);
    }
    // The last look before the rename: nothing but that comes between.
    if !file.is_at_part() {
        return Err(NameFault::Exchanged);
    }
    file.replace()?;
    Ok(())
}
