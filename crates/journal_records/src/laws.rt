// Consequences of the definitions that the contracts cite.
ghost use Rattle.std.specs.Prelude.{◌≡◌, ◌⊎◌, ◌^◌, ◌≤◌, ℕ, List, length};
ghost use Rattle.journal_layout.specs.Folding.{Folded, nothing_yet};
ghost use Rattle.journal_layout.specs.Stands.{AreFaulty, AreRead};
ghost use Rattle.journal_layout.specs.declared.faults.OpenFault as faults;
ghost use Rattle.journal_layout.specs.declared.faults.OpenFault.TheVariants.{OutOfMemory};
ghost use Rattle.journal_records.specs.Said.{SaysFaulty};

/// Records of which one has a fault are refused for it: `replay` gives no cases of them, those before the fault or those
/// after it, and answers the first fault and no other, unless there was no memory. This function does nothing.
pub fn a_faulty_record_is_not_skipped()
    ensures read { (limit version at used : ℕ) (bytes : List ℕ) (said : Folded) (fault : faults.OpenFault)
        → limit ≤ 16777216 → length bytes ≤ 2 ^ 32 → AreFaulty limit at bytes (nothing_yet version) fault
        → ¬ AreRead limit bytes (nothing_yet version) said used }
    ensures fault { (limit version at : ℕ) (bytes : List ℕ) (fault answer : faults.OpenFault)
        → limit ≤ 16777216 → length bytes ≤ 2 ^ 32 → AreFaulty limit at bytes (nothing_yet version) fault
        → SaysFaulty limit version at bytes answer → (answer ≡ fault) ⊎ (answer ≡ OutOfMemory) }
{}
