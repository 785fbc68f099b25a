// The names of the live cases and of the open streams, kept in a set so that a name is looked up without going over these.
ghost use Rattle.std.specs.Prelude.{◌≡◌, ◌++◌, ◌∷◌, [], ◌≤◌, Err, IfOk, OnOk, IfErr, map, length};
ghost use Rattle.journal_records.specs.Named.{has_name};
ghost use Rattle.intake.specs.Names.{KeepsName, ForgetsName, ForgetsNames, items_of, names_gone};
ghost use Rattle.journal_layout.specs.Case.{case_of};
ghost use Rattle.journal_layout.specs.Soundness.{Rise};
ghost use Rattle.intake.specs.Retiring.{stays_named};
ghost use Rattle.intake.specs.declared.faults.ArchiveFault.TheVariants as fault;

use crate::ArchiveFault;
use journal_layout::{Entry, Name};
use journal_records::{NameKey, name_key};
use journal_snapshot::is_listed;
use std::alloc::{AllocError, Global};
use std::collections::BTreeSet;

/// A name of the same bytes.
pub(crate) fn copied(name: &Name) -> Name
    ensures { result.items ≡ name.now.items }
{
    Name::try_from(name.as_slice()).unwrap()
}

/// Whether a name is one of these.
pub(crate) fn has_name(names: &BTreeSet<NameKey>, name: &Name) -> bool
    ensures { result ≡ has_name names.now name.now.items }
{
    names.contains(&name_key(name))
}

/// Keeps a name. Answers `OutOfMemory` alone.
pub(crate) fn keep_name(names: &mut BTreeSet<NameKey>, name: &Name) -> Result<(), ArchiveFault>
    ensures names { KeepsName result name.now.items names.old names.new }
    ensures only { IfErr result (λ f. f ≡ fault.OutOfMemory) }
{
    match names.insert(name_key(name)) {
        Ok(_) => Ok(()),
        Err(_) => Err(ArchiveFault::OutOfMemory),
    }
}

/// Forgets a name.
pub(crate) fn forget_name(names: &mut BTreeSet<NameKey>, name: &Name)
    ensures { ForgetsName name.now.items names.old names.new }
{
    names.remove(&name_key(name));
}

/// Forgets these names.
pub(crate) fn forget_names(names: &mut BTreeSet<NameKey>, gone: &[Name])
    ensures { ForgetsNames gone.now names.old names.new }
{
    for name in gone {
        forget_name(names, name);
    }
}

// Adds the name of an entry, if its number is one of these.
fn add_if_listed(names: &mut Vec<Name>, entry: &Entry, seqs: &[u32]) -> Result<(), AllocError>
    requires { Rise 0 seqs.now }
    ensures { OnOk result (map items_of names.new.items
        ≡ map items_of names.old.items ++ names_gone seqs.now (case_of entry.now ∷ [])) }
{
    if is_listed(seqs, entry.seq) {
        names.push(copied(&entry.name))?;
    }
    Ok(())
}

/// The names of the entries of these numbers.
pub(crate) fn names_of(
    alloc: Global,
    entries: &[Entry],
    seqs: &[u32],
) -> Result<Vec<Name>, AllocError>
    requires { Rise 0 seqs.now }
    ensures { IfOk result (λ names. map items_of names.items
        ≡ names_gone seqs.now (map case_of entries.now)) }
{
    let mut names = Vec::new(alloc);
    for entry in entries {
        add_if_listed(&mut names, entry, seqs)?;
    }
    Ok(names)
}

// Whether an entry is not one of these numbers and has this name.
fn stays_so_named(entry: &Entry, seqs: &[u32], name: &Name) -> bool
    requires { Rise 0 seqs.now }
    ensures { result ≡ stays_named name.now.items seqs.now (case_of entry.now ∷ []) }
{
    !is_listed(seqs, entry.seq) && entry.name.as_slice() == name.as_slice()
}

/// Whether an entry that is not one of these numbers has this name.
pub(crate) fn is_name_kept(entries: &[Entry], seqs: &[u32], name: &Name) -> bool
    requires { Rise 0 seqs.now }
    ensures { result ≡ stays_named name.now.items seqs.now (map case_of entries.now) }
{
    let mut is_kept = false;
    for entry in entries {
        is_kept = is_kept || stays_so_named(entry, seqs, name);
    }
    is_kept
}
