// The parts of both halves that are read first and last: their generations and their gates.
ghost use Rattle.std.specs.Prelude.{◌≡◌, ◌+◌, ◌≤◌, ℕ, length, IsTrue, IfOk, IfSome};
ghost use Rattle.disk_model.specs.Places.{part};
ghost use Rattle.journal_layout.specs.Layout.{data_start, disk_length, IsWithinLimits};
ghost use Rattle.shared_disk.specs.Heads.{HasHeads, IsLater, ReadsGates, ReadsGenerations};
ghost use Rattle.shared_disk.specs.Watching.{Runs};

use crate::reads::read_both;
use crate::watched::WatchedDisk;
use byteorder::{ByteOrder, LittleEndian};
use disk_model::DiskFault;
use journal_layout::{Half, Shape};
use journal_records::GATE_OPEN;

/// The generation and the gate of each half.
#[derive(Clone, Copy)]
pub(crate) struct Heads {
    generation_a: [u8; 8],
    generation_b: [u8; 8],
    gate_a: [u8; 1],
    gate_b: [u8; 1],
}

/// Reads the generations, and then the gates.
pub(crate) fn read_heads<D: WatchedDisk>(disk: &mut D, shape: Shape) -> Result<Heads, DiskFault>
    requires limits { IsWithinLimits shape }
    requires size { D.size disk.old ≡ disk_length shape }
    ensures read { IfOk result (λ h. IsTrue (D.is_honest disk.old) → (m : ℕ) × (D.reached disk.old ≤ m) × (m ≤ D.reached disk.new)
        × ReadsGenerations (D.moments disk.old) (D.reached disk.old) m shape h × ReadsGates (D.moments disk.old) m (D.reached disk.new) shape h) }
    ensures runs { Runs D.WatchedDisk disk.old disk.new }
{
    let (mut generation_a, mut generation_b) = ([0; 8], [0; 8]);
    let (mut gate_a, mut gate_b) = ([0; 1], [0; 1]);
    read_both(disk, shape, 8, &mut generation_a, &mut generation_b)?;
    read_both(disk, shape, 0, &mut gate_a, &mut gate_b)?;
    Ok(Heads {
        generation_a,
        generation_b,
        gate_a,
        gate_b,
    })
}

/// Reads the gates, and then the generations.
pub(crate) fn read_heads_again<D: WatchedDisk>(
    disk: &mut D,
    shape: Shape,
) -> Result<Heads, DiskFault>
    requires limits { IsWithinLimits shape }
    requires size { D.size disk.old ≡ disk_length shape }
    ensures read { IfOk result (λ h. IsTrue (D.is_honest disk.old) → (m : ℕ) × (D.reached disk.old ≤ m) × (m ≤ D.reached disk.new)
        × ReadsGates (D.moments disk.old) (D.reached disk.old) m shape h × ReadsGenerations (D.moments disk.old) m (D.reached disk.new) shape h) }
    ensures runs { Runs D.WatchedDisk disk.old disk.new }
{
    let (mut last_a, mut last_b) = ([0; 8], [0; 8]);
    let (mut last_gate_a, mut last_gate_b) = ([0; 1], [0; 1]);
    read_both(disk, shape, 0, &mut last_gate_a, &mut last_gate_b)?;
    read_both(disk, shape, 8, &mut last_a, &mut last_b)?;
    Ok(Heads {
        generation_a: last_a,
        generation_b: last_b,
        gate_a: last_gate_a,
        gate_b: last_gate_b,
    })
}

impl Heads {
    /// The half that is taken, as far as these headers show.
    pub(crate) fn taken(&self) -> Option<Half>
        ensures { IfSome result (IsLater self.now) }
    {
        let a = LittleEndian::read_u64(&self.generation_a);
        let b = LittleEndian::read_u64(&self.generation_b);
        let (is_a_open, is_b_open) = (self.gate_a[0] == GATE_OPEN, self.gate_b[0] == GATE_OPEN);
        if is_a_open && (!is_b_open || a > b) {
            return Some(Half::A);
        }
        if is_b_open {
            return Some(Half::B);
        }
        None
    }
}

// Whether these bytes are there from place `at` on.
fn has_part(front: &[u8], at: u64, bytes: &[u8]) -> bool
    requires { at + length bytes.now ≤ length front.now }
    ensures { IsTrue result → part front.now at (length bytes.now) ≡ bytes.now }
{
    &front[at as usize..at as usize + bytes.len()] == bytes
}

/// Whether the front has these.
pub(crate) fn has_heads(front: &[u8], shape: Shape, heads: &Heads) -> bool
    requires limits { IsWithinLimits shape }
    requires front { length front.now ≡ data_start shape }
    ensures { IsTrue result → HasHeads front.now shape heads.now }
{
    let (a, b) = (shape.half_start(Half::A), shape.half_start(Half::B));
    has_part(front, a + 8, &heads.generation_a)
        && has_part(front, b + 8, &heads.generation_b)
        && has_part(front, a, &heads.gate_a)
        && has_part(front, b, &heads.gate_b)
}
