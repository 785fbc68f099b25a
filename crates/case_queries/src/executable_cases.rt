// The executables of an archive, among which those of many cores are looked up.
ghost use Rattle.std.specs.Prelude.{◌≡◌, ◌∷◌, ◌++◌, [], IfOk, List, OnOk, filter, map};
ghost use Rattle.build_replies.specs.Mapped.{id_view};
ghost use Rattle.build_replies.specs.NameWords.{names_in, stored_names, wanted_debugs};
ghost use Rattle.intake.specs.Parts.{state_of};
ghost use Rattle.journal_layout.specs.Case.{Case, case_of};
ghost use Rattle.case_queries.specs.Collecting.{debugs_by, wanted_by, wanted_case};
ghost use Rattle.case_queries.specs.CollectingWords.{executable_view, wanted_view};
ghost use Rattle.case_queries.specs.Executables.{executables_in, has_name_of, named_of};
ghost use Rattle.case_queries.specs.ToldWords.{files_told};

use crate::collect_executables::{StoredExecutable, WantedCase, lent};
use crate::told::ToldFiles;
use build_ids::{build_name, has_name};
use build_replies::{ChosenExecutables, FrontId, StoredNames, build_names, debug_names, listed};
use disk_model::Disk;
use intake::{Archive, ArchiveFault};
use journal_layout::{Entry, Kind, Name};
use std::alloc::{AllocError, Global};
use stream_names::copied;

// That of the hash FNV-1a, of 64 bits.
const PRIME: u64 = 0x100_0000_01b3;

/// The executables of an archive, by their numbers and names.
#[derive(Drop)]
pub struct ExecutableCases {
    pub(crate) cases: Vec<WantedCase>,
}

// Puts a case after others, if it is an executable. The error is that there is no memory.
fn add_executable(cases: &mut Vec<WantedCase>, entry: &Entry) -> Result<(), AllocError>
    ensures { OnOk result (map wanted_view cases.new.items ≡ map wanted_view cases.old.items ++ executables_in (case_of entry.now ∷ [])) }
{
    match entry.kind {
        Kind::Core => {}
        Kind::Exec => cases.push(WantedCase {
            seq: entry.seq,
            path: copied(entry.name.as_slice()),
        })?,
    }
    Ok(())
}

// The executables of these cases. The error is that there is no memory.
fn executables_among(alloc: Global, entries: &[Entry]) -> Result<Vec<WantedCase>, AllocError>
    ensures { IfOk result (λ v. map wanted_view v.items ≡ executables_in (map case_of entries.now)) }
{
    let mut cases = Vec::new(alloc);
    for entry in entries {
        add_executable(&mut cases, entry)?;
    }
    Ok(cases)
}

// Puts a case after others, if it has one of these names. The error is that there is no memory.
fn add_named(
    names: &StoredNames<'_>,
    case: &WantedCase,
    wanted: &mut Vec<WantedCase>,
) -> Result<(), AllocError>
    ensures { OnOk result (map wanted_view wanted.new.items ≡ map wanted_view wanted.old.items ++ named_of (names_in names.now) (wanted_view case.now ∷ [])) }
{
    if names.contains(case.path.as_slice()) {
        wanted.push(WantedCase {
            seq: case.seq,
            path: copied(case.path.as_slice()),
        })?;
    }
    Ok(())
}

// Those of these cases that have one of these names. The error is that there is no memory.
fn named_in(
    alloc: Global,
    names: &StoredNames<'_>,
    cases: &[WantedCase],
) -> Result<Vec<WantedCase>, AllocError>
    ensures { IfOk result (λ v. map wanted_view v.items ≡ named_of (names_in names.now) (map wanted_view cases.now)) }
{
    let mut wanted = Vec::new(alloc);
    for case in cases {
        add_named(names, case, &mut wanted)?;
    }
    Ok(wanted)
}

// The paths of these.
fn paths_of(alloc: Global, cases: &[WantedCase]) -> Result<Vec<Name>, AllocError> {
    let mut paths = Vec::new(alloc);
    for case in cases {
        paths.push(copied(case.path.as_slice()))?;
    }
    Ok(paths)
}

// A number of these bytes after others.
fn with_bytes(number: u64, bytes: &[u8]) -> u64 {
    let mut number = number;
    for byte in bytes {
        number = (number ^ u64::from(*byte)).wrapping_mul(PRIME);
    }
    number
}

// A number of a mapped file after others, if it, or its build, has one of these names.
fn with_file(number: u64, names: &StoredNames<'_>, file: &FrontId<'_>) -> u64 {
    let id = file.id().unwrap_or(&[]);
    if names.contains(file.name) || (has_name(id) && names.contains(&build_name(id))) {
        with_bytes(with_bytes(number, file.name), id)
    } else {
        number
    }
}

impl ExecutableCases {
    ghost use Rattle.case_queries.specs.ExecutableWords.{AreOf};

    /// Those of an archive.
    ///
    /// # Errors
    ///
    /// `Stopped`. `OutOfMemory`: there is no memory for the list of them.
    pub fn of<D: Disk>(alloc: Global, archive: &Archive<D>) -> Result<ExecutableCases, ArchiveFault>
        ensures { IfOk result (AreOf (state_of archive.now).cases) }
    {
        let cases = executables_among(alloc, archive.cases()?)?;
        Ok(ExecutableCases { cases })
    }

    // Those that are stored for a core's mapped files. The error is that there is no memory.
    pub(crate) fn stored_for(
        &self,
        alloc: Global,
        told: &ToldFiles<'_>,
    ) -> Result<Vec<WantedCase>, AllocError>
        ensures { IfOk result (λ v. (cases : List Case) → AreOf cases self.now → map wanted_view v.items ≡ wanted_by (files_told told.now) cases) }
    {
        let files = listed(&told.files);
        let builds = build_names(alloc, files)?;
        let names = StoredNames::of(alloc, files, &builds)?;
        Ok(named_in(alloc, &names, &self.cases)?)
    }

    // The debug files of those of these executables that are used for a core's mapped files. The error is that there is no memory.
    pub(crate) fn debugs_for(
        &self,
        alloc: Global,
        told: &ToldFiles<'_>,
        executables: &[StoredExecutable],
    ) -> Result<Vec<WantedCase>, AllocError>
        ensures { IfOk result (λ v. (cases : List Case) → AreOf cases self.now → map wanted_view v.items ≡ debugs_by (files_told told.now) (map executable_view executables.now) cases) }
    {
        let lent = lent(alloc, executables)?;
        let chosen = ChosenExecutables::of(alloc, listed(&told.files), &lent.attached)?;
        let names = debug_names(alloc, &chosen.used)?;
        let stored = StoredNames::of_names(alloc, &names)?;
        Ok(named_in(alloc, &stored, &self.cases)?)
    }

    /// A number for the executables that are stored for a core's mapped files: the same for cores that have the same files, and the same
    /// build IDs of them, if executables are stored for them. Others rarely have the same number. No answer rests on it.
    ///
    /// # Errors
    ///
    /// There is no memory.
    pub fn list_number(&self, alloc: Global, told: &ToldFiles<'_>) -> Result<u64, AllocError> {
        let wanted = self.stored_for(alloc, told)?;
        let paths = paths_of(alloc, &wanted)?;
        let names = StoredNames::of_names(alloc, &paths)?;
        let mut number = 0;
        for file in listed(&told.files) {
            number = with_file(number, &names, file);
        }
        Ok(number)
    }
}
