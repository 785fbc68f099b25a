// Executables that are prepared once for all cores that use the same ones.
ghost use Rattle.std.specs.Prelude.{◌≡◌, ◌++◌, IfOk, IsTrue, map};
ghost use Rattle.address_space.specs.SpaceWords.{attached_view};
ghost use Rattle.build_replies.specs.Choosing.{choice_of};
ghost use Rattle.build_replies.specs.Mapped.{id_view};
ghost use Rattle.frame_replies.specs.Walking.{AreExecutablesOf};
ghost use Rattle.case_queries.specs.CollectingWords.{executable_view};
ghost use Rattle.case_queries.specs.ToldWords.{files_told};

use crate::collect_executables::{StoredExecutable, are_read, lent_with};
use crate::executable_cases::ExecutableCases;
use crate::told::ToldFiles;
use address_space::Attached;
use build_replies::{ChosenExecutables, FrontId, are_same_files, chosen_files, listed};
use frame_replies::UnwoundExecutables;
use std::alloc::{AllocError, Global};

/// The executables that are stored for a core's mapped files, and their debug files, with their symbols and call frame information.
#[derive(Drop)]
pub struct PreparedExecutables<'e> {
    pub(crate) stored: &'e [StoredExecutable],
    pub(crate) debug_files: &'e [StoredExecutable],
    pub(crate) attached: Vec<Attached<'e>>,
    // The mapped files that have one of them.
    pub(crate) files: Vec<FrontId<'e>>,
    pub(crate) unwound: UnwoundExecutables<'e>,
    ghost views: { map attached_view attached.items ≡ map executable_view stored.now ++ map executable_view debug_files.now },
    ghost are: { AreExecutablesOf (choice_of (map id_view files.items) (map attached_view attached.items)) unwound },
}

impl<'e> PreparedExecutables<'e> {
    ghost use Rattle.std.specs.Prelude.{List};
    ghost use Rattle.journal_layout.specs.Case.{Case};
    ghost use Rattle.case_queries.specs.ExecutableWords.{AreOf};
    ghost use Rattle.case_queries.specs.Preparing.{AreChosenFor, Serves};

    /// Prepares these for a core with these mapped files. The error is that there is no memory.
    pub fn of(
        alloc: Global,
        told: &ToldFiles<'e>,
        executables: &'e [StoredExecutable],
        debug_files: &'e [StoredExecutable],
    ) -> Result<PreparedExecutables<'e>, AllocError>
        ensures stored { IfOk result (λ p. p.stored.now ≡ executables.now) }
        ensures debugs { IfOk result (λ p. p.debug_files.now ≡ debug_files.now) }
        ensures serve { IfOk result (λ p. AreChosenFor p (files_told told.now)) }
    {
        let attached = lent_with(alloc, executables, debug_files)?.attached;
        let files = chosen_files(alloc, listed(&told.files), &attached)?;
        let chosen = ChosenExecutables::of(alloc, &files, &attached)?;
        let unwound = UnwoundExecutables::of(alloc, &chosen)?;
        Ok(PreparedExecutables {
            stored: executables,
            debug_files,
            attached,
            files,
            unwound,
        })
    }
    /// Whether these serve a core with those mapped files, of an archive with those executables: they are the ones that would be read for
    /// it, and the same of them are chosen as for the core for which they were prepared. The only error is that there is no memory.
    pub fn serve(
        &self,
        alloc: Global,
        told: &ToldFiles<'_>,
        all: &ExecutableCases,
    ) -> Result<bool, AllocError>
        ensures { IfOk result (λ yes. IsTrue yes → (cases : List Case) → AreOf cases all.now → Serves self.now (files_told told.now) cases) }
    {
        let wanted = all.stored_for(alloc, told)?;
        if !are_read(self.stored, &wanted) {
            return Ok(false);
        }
        let debugs = all.debugs_for(alloc, told, self.stored)?;
        if !are_read(self.debug_files, &debugs) {
            return Ok(false);
        }
        let files = chosen_files(alloc, listed(&told.files), &self.attached)?;
        Ok(are_same_files(&files, &self.files))
    }
}
