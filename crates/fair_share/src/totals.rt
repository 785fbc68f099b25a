//! The blocks of the cores of each user, or of each program, counted in one pass.
ghost use Rattle.std.specs.Prelude.{◌≡◌, ◌+◌, ◌^◌, ◌≤◌, ℕ, List, IfSome, OnOk, map};
ghost use Rattle.journal_layout.specs.Case.{case_of};
ghost use Rattle.fair_share.specs.Totals.{AreTotals, total_in};
ghost use Rattle.fair_share.specs.Weighing as weighing;

use crate::choosing::{Scope, counted, owner_of};
use journal_layout::Entry;
use std::alloc::{AllocError, Global};
use std::collections::BTreeMap;

// The blocks of each owner's unpinned cores.
#[derive(Drop)]
pub(crate) struct Totals<'a> {
    blocks: BTreeMap<&'a [u8], u128>,
}

impl<'a> Totals<'a> {
    // Adds the blocks of one more case.
    fn add(&mut self, core: &'a Entry, scope: Scope) -> Result<(), AllocError>
        requires small { (owner : List ℕ) → total_in self.old owner ≤ 2 ^ 127 }
        ensures grows { OnOk result ((owner : List ℕ) → total_in self.new owner ≡ total_in self.old owner + weighing.counted scope owner (case_of core.now)) }
        ensures slowly { OnOk result ((owner : List ℕ) → total_in self.new owner ≤ total_in self.old owner + 18446744073709551615) }
    {
        let owner = owner_of(scope, &core.name);
        let blocks = self.total(owner) + counted(core, scope, owner);
        self.blocks.insert(owner, blocks)?;
        Ok(())
    }

    // The blocks of an owner.
    pub(crate) fn total(&self, owner: &[u8]) -> u128
        ensures { result ≡ total_in self.now owner.now }
    {
        self.blocks.get(owner).copied().unwrap_or(0)
    }
}

// The blocks of all unpinned cores, by their owners, if there is memory for them.
pub(crate) fn totals_of<'a>(alloc: Global, cases: &'a [Entry], scope: Scope) -> Option<Totals<'a>>
    ensures { IfSome result (λ totals. AreTotals scope totals (map case_of cases.now)) }
{
    let mut totals = Totals {
        blocks: BTreeMap::new(alloc),
    };
    for core in cases {
        let Ok(()) = totals.add(core, scope) else {
            return None;
        };
    }
    Some(totals)
}
