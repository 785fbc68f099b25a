// A Store record's facts.
ghost use Rattle.std.specs.Prelude.{◌≡◌, ℕ, ◌+◌, ◌*◌, ◌^◌, ◌<◌, ◌≤◌, ◌==◌, not, List, Some, None, if◌then◌else◌, length, OnOk};
ghost use Rattle.std.specs.Result.{result_err};
ghost use Rattle.journal_layout.specs.declared.faults.Field.TheVariants as named;
ghost use Rattle.journal_layout.specs.Case.{case_of};
ghost use Rattle.journal_layout.specs.Folding.{Folded};
ghost use Rattle.journal_layout.specs.Layout.{field};
ghost use Rattle.journal_layout.specs.Record.{rounded};
ghost use Rattle.journal_layout.specs.Reading.{length_at, name_length_at, run_count_at, name_place, origin_at, case_at, store_runs};
ghost use Rattle.journal_layout.specs.Checks.{damaged, first_failing, store_checks, block_count};
ghost use Rattle.journal_layout.specs.Soundness.{blocks_for};
ghost use Rattle.journal_records.specs.Head.{IsHeaded, IsPlaced};

use crate::{damaged, rounded, u16_at, u32_at, u64_at};
use extents::RunList;
use journal_layout::{Entry, Field, Kind, Label, Name, OpenFault};

// Whether the length is not that of the runs and the name: true also if the record is too short to hold their numbers.
fn is_bad_count(rest: &[u8]) -> bool
    requires { IsHeaded rest.now }
    ensures { result ≡ not (rounded (48 + 8 * run_count_at rest.now + name_length_at rest.now) == length_at rest.now) }
{
    let length = u64::from(u32_at(rest, 4));
    length < 48
        || rounded(48 + 8 * u64::from(u32_at(rest, 40)) + u64::from(u16_at(rest, 14))) != length
}

/// The checks of a Store record up to its runs, if the next case has the number `next`.
pub(crate) fn check_facts(rest: &[u8], at: u64, next: u64) -> Result<(), OpenFault>
    requires head { IsHeaded rest.now }
    requires disk { at + length rest.now ≤ 2 ^ 63 }
    ensures fault { (f : Folded) → result_err result
        ≡ first_failing at (store_checks rest.now (record f { next = next })) }
    ensures placed { OnOk result (IsPlaced rest.now) }
    ensures number { OnOk result (next ≤ field rest.now 8 4) }
{
    if u64::from(u32_at(rest, 8)) < next {
        return Err(damaged(at, Field::Seq, 8));
    }
    if rest[12] != 1 && rest[12] != 2 {
        return Err(damaged(at, Field::CaseKind, 12));
    }
    if 1 < rest[13] {
        return Err(damaged(at, Field::Pinned, 13));
    }
    let name_length = u16_at(rest, 14);
    if name_length == 0 || 128 < name_length {
        return Err(damaged(at, Field::NameLength, 14));
    }
    if is_bad_count(rest) {
        return Err(damaged(at, Field::Runs, 40));
    }
    if u32_at(rest, 44) != 0 {
        return Err(damaged(at, Field::Reserved, 44));
    }
    Ok(())
}

/// The check that an image has as many blocks as its length needs.
pub(crate) fn check_image(rest: &[u8], at: u64, blocks: u64) -> Result<(), OpenFault>
    requires in_half { 48 ≤ length rest.now }
    requires disk { at + length rest.now ≤ 2 ^ 63 }
    ensures { result_err result
        ≡ (if not (blocks == blocks_for (field rest.now 32 8)) then Some (damaged at named.ImageLength 32) else None) }
{
    if blocks != u64_at(rest, 32).div_ceil(4096) {
        return Err(damaged(at, Field::ImageLength, 32));
    }
    Ok(())
}

/// The case that a Store record gives, with its name and its blocks, and no label.
pub(crate) fn entry_at(rest: &[u8], name: Name, runs: RunList) -> Entry
    requires in_half { 48 ≤ length rest.now }
    ensures { case_of result ≡ record (case_at rest.now) { origin = record (origin_at rest.now) { name = name.items }; blocks = runs } }
{
    Entry {
        seq: u32_at(rest, 8),
        kind: if rest[12] == 1 {
            Kind::Core
        } else {
            Kind::Exec
        },
        name,
        pid: u32_at(rest, 16),
        signal: u32_at(rest, 20),
        time: u64_at(rest, 24),
        pinned: rest[13] == 1,
        length: u64_at(rest, 32),
        runs,
        label: Label::new(),
    }
}
