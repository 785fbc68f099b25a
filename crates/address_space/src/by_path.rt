// The paths of a list, looked up in logarithmic time.
ghost use Rattle.std.specs.Prelude.{◌≡◌, ◌++◌, ◌∷◌, [], ℕ, List, MatchOption, None, OnOk, OnErr, find, length, slice_get};
ghost use Rattle.std.specs.Option.{option_map};
ghost use Rattle.address_space.specs.Source.{ExecutableView, first_from, is_named};

use std::alloc::{AllocError, Global};
use std::collections::BTreeMap;

/// The paths of a list of executables, each with the number of the first that has it.
#[derive(Drop)]
pub struct ByPath<'a> {
    pub(crate) numbers: BTreeMap<&'a [u8], usize>,
}

impl<'a> ByPath<'a> {
    ghost use Rattle.address_space.specs.PathWords.{AreNumbered, number_in};

    /// The table of none.
    pub fn new(alloc: Global) -> ByPath<'a>
        ensures { AreNumbered result [] }
    {
        ByPath {
            numbers: BTreeMap::new(alloc),
        }
    }

    /// Adds one executable more, of that path. If this was the table of a list, it is then the table of that list with the
    /// executable. Without memory it is still that of the list.
    pub fn add(&mut self, path: &'a [u8], number: usize) -> Result<(), AllocError>
        ensures ok { OnOk result ((all : List ExecutableView) (one : ExecutableView) → one.path ≡ path.entry.now
            → number ≡ length all → AreNumbered self.old all → AreNumbered self.new (all ++ one ∷ [])) }
        ensures err { OnErr result ((all : List ExecutableView) → AreNumbered self.old all → AreNumbered self.new all) }
    {
        if self.numbers.contains_key(path) {
            return Ok(());
        }
        self.numbers.insert(path, number)?;
        Ok(())
    }

    /// The number of a path, if the table has it.
    fn number_in(&self, path: &[u8]) -> Option<usize>
        ensures { result ≡ number_in self.now path.now }
    {
        self.numbers.get(path).copied()
    }

    /// The number of the first executable of that path in a list, if this is the table of it.
    pub fn number(&self, path: &[u8]) -> Option<usize>
        ensures first { (all : List ExecutableView) → AreNumbered self.now all
            → result ≡ option_map (λ (e : ℕ × ExecutableView). e.0) (first_from (is_named path.now) 0 all) }
        ensures there { (all : List ExecutableView) → AreNumbered self.now all
            → MatchOption result (find (is_named path.now) all ≡ None) (λ n. slice_get all n ≡ find (is_named path.now) all) }
    {
        self.number_in(path)
    }
}
