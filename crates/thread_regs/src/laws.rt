// Consequences of the definitions that the contracts cite.
ghost use Rattle.std.specs.Prelude.{◌≡◌, ◌≢◌, ◌≤◌, ◌<◌, ℕ, List};
ghost use Rattle.core_notes.specs.Descriptor.{pr_reg};
ghost use Rattle.thread_regs.specs.Register.{register_in};

/// A register's value is the word at its own place, which no word with another value is: word 0 for pc, and word `x` for
/// each of x1 to x31. x0 is zero, whatever the words are. This function does nothing.
pub fn a_register_is_its_own_word()
    ensures x { (desc : List ℕ) (x word : ℕ) → 1 ≤ x → x < 32 → pr_reg desc word ≢ pr_reg desc x → register_in desc x ≢ pr_reg desc word }
    ensures pc { (desc : List ℕ) (word : ℕ) → pr_reg desc word ≢ pr_reg desc 0 → register_in desc 32 ≢ pr_reg desc word }
    ensures zero { (desc : List ℕ) → register_in desc 0 ≡ 0 }
{}
