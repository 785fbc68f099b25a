// The decision of the rule about an archive's cases.
ghost use Rattle.std.specs.Prelude.{◌≡◌, map, IfOk};
ghost use Rattle.std.specs.List.Sorted.{IsStrictlyIncreasing};
ghost use Rattle.retention.specs.Rule.{IsDecision};
ghost use Rattle.journal_layout.specs.declared.entry.Entry.{Entry};
ghost use Rattle.intake.specs.Retiring.{brief_of_entry, seq_of_entry};

use journal_layout::Entry;
use retention::{Brief, Decision, Policy, decide};
use std::alloc::{AllocError, Global};

// The fields of the entries that the rule reads.
fn briefs_of(alloc: Global, entries: &[Entry]) -> Result<Vec<Brief>, AllocError>
    ensures { IfOk result (λ briefs. briefs.items ≡ map brief_of_entry entries.now) }
{
    let mut briefs = Vec::with_capacity(alloc, entries.len())?;
    for entry in entries {
        briefs.push(Brief {
            seq: entry.seq,
            time: entry.time,
            length: entry.length,
            pinned: entry.pinned,
        })?;
    }
    Ok(briefs)
}

/// The decision of the rule about the entries, whose numbers rise.
pub(crate) fn decide_for(
    alloc: Global,
    entries: &[Entry],
    policy: &Policy,
) -> Result<Decision, AllocError>
    requires { IsStrictlyIncreasing (map seq_of_entry entries.now) }
    ensures decision { IfOk result (λ decision.
        IsDecision policy.now (map brief_of_entry entries.now) decision.dropped.items decision.unmet) }
    ensures rising { IfOk result (λ decision. IsStrictlyIncreasing decision.dropped.items) }
{
    let briefs = briefs_of(alloc, entries)?;
    decide(alloc, &briefs, policy)
}
