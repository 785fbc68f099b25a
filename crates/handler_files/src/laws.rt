//! Laws of the table of fates.
ghost use Rattle.std.specs.Prelude.{◌≡◌, ◌≢◌, ◌⊎◌};
ghost use Rattle.handler_files.specs.Spools.{spools, MayPass, NeverPasses};
ghost use Rattle.handler_files.specs.declared.outcomes.Outcome.{Outcome};
ghost use Rattle.handler_files.specs.declared.outcomes.Outcome.TheVariants.{Stored};
ghost use Rattle.handler_files.specs.declared.fate.Fate.TheVariants.{Stay, Go};

/// A core goes only if it is stored, or refused for good. One whose refusal may pass stays. Each outcome is one of these.
pub fn only_what_is_done_goes()
    ensures goes { (o : Outcome) → spools o ≡ Go → (o ≡ Stored) ⊎ NeverPasses o }
    ensures stays { (o : Outcome) → MayPass o → (spools o ≡ Stay) × (o ≢ Stored) }
    ensures each { (o : Outcome) → (o ≡ Stored) ⊎ (NeverPasses o ⊎ MayPass o) }
{}
