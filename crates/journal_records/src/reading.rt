// The records of a half, one after another.
ghost use Rattle.std.specs.Prelude.{◌≡◌, ◌+◌, ◌^◌, ◌<◌, ◌≤◌, length, map, IfOk, IfErr, IfSome};
ghost use Rattle.journal_layout.specs.Case.{case_of};
ghost use Rattle.journal_layout.specs.Folding.{nothing_yet};
ghost use Rattle.journal_records.specs.Kept.{Says, AreNames, IsSpareMap};
ghost use Rattle.journal_records.specs.Said.{said_of, EndsIn, SaysFaulty, ReadsAll};
ghost use Rattle.journal_layout.specs.Stands.{AreRead};

use crate::GATE_OPEN;
use crate::cases::Cases;
use crate::names::NameKey;
use extents::FreeMap;
use journal_layout::{Entry, OpenFault};
use std::alloc::Global;
use std::collections::BTreeSet;

/// The meaning of the records of a half.
#[derive(Drop)]
pub struct Replayed {
    /// The live cases, in the order of their numbers.
    pub entries: Vec<Entry>,
    /// The names of the live cases.
    pub names: BTreeSet<NameKey>,
    /// The data blocks that no live case has.
    pub free: FreeMap,
    /// The number of the next case, 1 to 2^32.
    pub next: u64,
    /// The start of the last record, in bytes from the start of the first one, if there is one.
    pub last: Option<u64>,
    /// The bytes of the records. The gate after them is not open.
    pub size: u64,
}

// Reads the records up to the first gate that is not open. Returns
// where the last one starts, if there is one, and their bytes.
fn read_records(
    cases: &mut Cases,
    alloc: Global,
    bytes: &[u8],
    at: u64,
) -> Result<(Option<u64>, usize), OpenFault>
    requires some { 1 ≤ length bytes.now }
    requires disk { at + length bytes.now ≤ 2 ^ 63 }
    requires limit { length cases.old.free ≤ 16777216 }
    requires says { Says (nothing_yet cases.old.version) (length cases.old.free) cases.old }
    ensures { ReadsAll (length cases.old.free) cases.old.version at bytes.now result cases.new }
{
    let mut last = None;
    let mut size = 0;
    while bytes[size] == GATE_OPEN {
        let more = cases.read_record(alloc, &bytes[size..], at + size as u64)?;
        last = Some(size as u64);
        size += more;
    }
    Ok((last, size))
}

/// Reads the records of a half. `bytes` are the bytes of the half after its header, and `at` is their place on the disk,
/// in bytes; `version` is that of its layout, and `data_blocks` the number of the archive's data blocks.
///
/// `Damaged`: this field is the first that is wrong. `OutOfMemory`: there was no memory. There is no other error.
pub fn replay(
    alloc: Global,
    bytes: &[u8],
    at: u64,
    version: u32,
    data_blocks: u32,
) -> Result<Replayed, OpenFault>
    requires some { 1 ≤ length bytes.now }
    requires places { at + length bytes.now ≤ 2 ^ 63 }
    requires blocks { data_blocks ≤ 16777216 }
    ensures read { IfOk result (λ r. AreRead data_blocks bytes.now (nothing_yet version) (said_of version r) r.size) }
    ensures fault { IfErr result (SaysFaulty data_blocks version at bytes.now) }
    ensures last { IfOk result (λ r. EndsIn data_blocks version bytes.now r.last r.size) }
    ensures names { IfOk result (λ r. AreNames (map case_of r.entries.items) r.names) }
    ensures free { IfOk result (λ r. IsSpareMap data_blocks (map case_of r.entries.items) r.free) }
    ensures bounds { IfOk result (λ r. (1 ≤ r.next) × (r.next ≤ 2 ^ 32) × (r.size + 1 ≤ length bytes.now) × IfSome r.last (λ n. n < r.size)) }
{
    let mut cases = Cases::new(alloc, version, data_blocks)?;
    let (last, size) = read_records(&mut cases, alloc, bytes, at)?;
    let Cases {
        version: _,
        live,
        names,
        free,
        next,
    } = cases;
    Ok(Replayed {
        entries: live.into_entries(),
        names,
        free,
        next,
        last,
        size: size as u64,
    })
}
