// The files of a core that stay after the attempt to store it, and those that are removed.
ghost use Rattle.std.specs.Prelude.{◌≡◌, is_ok, true, false, OnOk, IfOk};
ghost use Rattle.handler_files.specs.Settlement.{told, sought, core_removed_if, words_removed_if, IsLetGo, WordsSettled};
ghost use Rattle.handler_files.specs.Spools.{spools};
ghost use Rattle.handler_files.specs.declared.fate.Fate.TheVariants.{Stay, Go};
ghost use Rattle.handler_files.specs.declared.settlement.SpooledFacts.{SpooledFacts};

use crate::fate::{Fate, fate_of};
use crate::outcomes::Outcome;
use std::io;

/// The known facts about a core in the spool, by the calls that were made on its files.
#[derive(Clone, Copy)]
pub struct SpooledFacts {
    /// The outcome of the last attempt to store it.
    pub outcome: Option<Outcome>,
    /// The removal of its core was never asked for, or has failed, and no look has shown that its core is gone.
    pub has_core: bool,
    /// Its core was looked for.
    pub is_sought: bool,
    /// The removal of its words was never asked for, or has failed.
    pub has_words: bool,
}

/// A core in the spool: its file and that of its words. Each method is one call of the operating system, or a note. The `requires` say what has to
/// have come before: a core is removed only after an outcome that lets it go, and its words only once it is gone, so that a core always has its words.
pub trait Spooled {
    /// The known facts about it.
    ghost facts: { Self → SpooledFacts };

    /// Notes the outcome of the attempt to store it.
    fn print(&mut self, outcome: Outcome)
        ensures told { facts self.new ≡ told outcome (facts self.old) };

    /// Looks for its core, first under the name that it has until it is whole, and then under the other: it gets that one before it loses the
    /// first. Answers whether it is gone.
    fn is_core_gone(&mut self) -> bool
        ensures facts { facts self.new ≡ sought result (facts self.old) };

    /// Removes the core.
    fn remove_core(&mut self) -> io::Result<()>
        requires done { IsLetGo (facts self.old) }
        ensures facts { facts self.new ≡ core_removed_if (is_ok result) (facts self.old) };

    /// Removes its words.
    fn remove_words(&mut self) -> io::Result<()>
        requires alone { (facts self.old).has_core ≡ false }
        ensures facts { facts self.new ≡ words_removed_if (is_ok result) (facts self.old) };
}

/// Leaves a core in the spool or removes it, by the outcome of the attempt to store it, and returns which.
///
/// # Errors
///
/// Those of the system: the core was to be removed, and is not, or its words are still there.
pub fn settle<S: Spooled>(spooled: &mut S, outcome: Outcome) -> io::Result<Fate>
    ensures fate { IfOk result (λ fate. fate ≡ spools outcome) }
    ensures stays { spools outcome ≡ Stay → S.facts spooled.new ≡ told outcome (S.facts spooled.old) }
    ensures core { spools outcome ≡ Go → OnOk result ((S.facts spooled.new).has_core ≡ false) }
    ensures words { spools outcome ≡ Go → OnOk result ((S.facts spooled.new).has_words ≡ false) }
{
    spooled.print(outcome);
    match fate_of(outcome) {
        Fate::Stay => Ok(Fate::Stay),
        Fate::Go => {
            spooled.remove_core()?;
            spooled.remove_words()?;
            Ok(Fate::Go)
        }
    }
}

/// Removes words whose core is gone, leaves those of one that is there, and says which. No core is removed.
///
/// # Errors
///
/// Those of the system: the words were to be removed, and are not.
pub fn settle_words<S: Spooled>(spooled: &mut S) -> io::Result<Fate>
    ensures looked { (S.facts spooled.new).is_sought ≡ true }
    ensures untold { (S.facts spooled.new).outcome ≡ (S.facts spooled.old).outcome }
    ensures settled { IfOk result (λ fate. WordsSettled fate (S.facts spooled.old) (S.facts spooled.new)) }
{
    if !spooled.is_core_gone() {
        return Ok(Fate::Stay);
    }
    spooled.remove_words()?;
    Ok(Fate::Go)
}
