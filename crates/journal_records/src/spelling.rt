// The spelling of records. A buffer grows before anything is added, so there is always room.
ghost use Rattle.std.specs.Prelude.{◌≡◌, ℕ, ◌+◌, ◌*◌, ◌<◌, ◌≤◌, ◌^◌, ◌++◌, [], ◌∷◌, ◌-◌, length, take, replicate, IfOk, OnOk, IsOk, vec_len, vec_capacity};
ghost use Rattle.std.specs.List.{flat_map};
ghost use Rattle.extents.specs.Runs.{runs_of};
ghost use Rattle.journal_layout.specs.Case.{case_of, numbered};
ghost use Rattle.journal_layout.specs.Layout.{number_bytes};
ghost use Rattle.journal_layout.specs.Record.{Store, Drop, Pin, Next, Label, kind_byte, run_bytes, seq_bytes, store_facts, rounded, plain_size, record_size, plain, behind_gate, spelling};
ghost use Rattle.journal_layout.specs.Folding.{sizes};
ghost use Rattle.journal_layout.specs.Rewriting.{label_records};
ghost use Rattle.journal_records.specs.Spelling.{stored_as};

use crate::rounded;
use byteorder::{ByteOrder, LittleEndian};
use extents::Run;
use journal_layout::{Entry, Kind, Label};
use std::alloc::{AllocError, Global};

/// The byte that opens a gate.
pub const GATE_OPEN: u8 = 0xa5;

/// The bytes of the entry's Store record.
pub fn store_size(entry: &Entry) -> u64
    requires { length entry.now.runs ≤ 2 ^ 52 }
    ensures { (seq : ℕ) → result ≡ record_size (Store (numbered seq (case_of entry.now))) }
{
    rounded(48 + 8 * entry.runs.runs().len() as u64 + entry.name.len() as u64)
}

/// The bytes of the records for a case with this label: its Store
/// record, and the label's record if the label is not empty.
pub fn case_size(entry: &Entry, label: &Label) -> u64
    requires { length entry.now.runs ≤ 2 ^ 52 }
    ensures { (seq : ℕ) → result
        ≡ record_size (Store (numbered seq (case_of entry.now))) + sizes (label_records seq label.now.items) }
{
    let store = rounded(48 + 8 * entry.runs.runs().len() as u64 + entry.name.len() as u64);
    if label.is_empty() {
        return store;
    }
    store + rounded(16 + label.len() as u64)
}

/// The bytes of the Drop record of these cases.
pub fn drop_size(seqs: &[u32]) -> u64
    ensures { result ≡ record_size (Drop seqs.now) }
{
    rounded(12 + 4 * seqs.len() as u64)
}

/// The bytes of the record of a label.
pub fn label_size(label: &[u8]) -> u64
    requires { length label.now ≤ 64 }
    ensures bytes { result ≡ rounded (16 + length label.now) }
    ensures record { (seq : ℕ) → result ≡ record_size (Label seq label.now) }
{
    rounded(16 + label.len() as u64)
}

fn kind_byte(kind: Kind) -> u8
    ensures { result ≡ kind_byte kind }
{
    match kind {
        Kind::Core => 1,
        Kind::Exec => 2,
    }
}

// Adds bytes for which there is room.
fn put(bytes: &mut Vec<u8>, more: &[u8])
    requires { vec_len bytes.old + length more.now ≤ vec_capacity bytes.old }
    ensures items { bytes.new.items ≡ bytes.old.items ++ more.now }
    ensures len { vec_len bytes.new ≡ vec_len bytes.old + length more.now }
    ensures capacity { vec_capacity bytes.old ≤ vec_capacity bytes.new }
{
    bytes.extend_from_slice(more).unwrap();
}

// Fills a record up with zeros to `size` bytes, for which there is room.
fn fill(bytes: &mut Vec<u8>, size: u64)
    requires small { size ≤ 16777216 }
    requires capacity_left { size ≤ vec_capacity bytes.old }
    ensures items { bytes.new.items ≡ take size bytes.old.items ++ replicate (size - vec_len bytes.old) 0 }
    ensures len { vec_len bytes.new ≡ size }
    ensures capacity { vec_capacity bytes.old ≤ vec_capacity bytes.new }
{
    bytes.resize(size as usize, 0).unwrap();
}

// The bytes after the gate of a record of this kind and size, up to its body.
#[tactic(auto, unfolding(journal_layout::specs::Layout::number_bytes))]
fn head(kind: u8, size: u32) -> [u8; 7]
    ensures bytes { result ≡ (kind ∷ 0 ∷ 0 ∷ []) ++ number_bytes 4 size }
    ensures size { length result ≡ 7 }
{
    let mut bytes = [0; 7];
    bytes[0] = kind;
    LittleEndian::write_u32(&mut bytes[3..], size);
    bytes
}

// The numbers of a Store record's body.
#[tactic(auto, unfolding(journal_layout::specs::Record::store_facts, journal_layout::specs::Layout::number_bytes))]
fn facts(seq: u32, entry: &Entry, pinned: bool) -> [u8; 40]
    requires { length (runs_of entry.now.runs) < 2 ^ 32 }
    ensures bytes { result ≡ store_facts (stored_as seq pinned (case_of entry.now)) }
    ensures size { length result ≡ 40 }
{
    let mut bytes = [0; 40];
    LittleEndian::write_u32(&mut bytes, seq);
    bytes[4] = kind_byte(entry.kind);
    bytes[5] = u8::from(pinned);
    LittleEndian::write_u16(&mut bytes[6..], entry.name.len() as u16);
    LittleEndian::write_u32(&mut bytes[8..], entry.pid);
    LittleEndian::write_u32(&mut bytes[12..], entry.signal);
    LittleEndian::write_u64(&mut bytes[16..], entry.time);
    LittleEndian::write_u64(&mut bytes[24..], entry.length);
    LittleEndian::write_u32(&mut bytes[32..], entry.runs.runs().len() as u32);
    bytes
}

#[tactic(auto, unfolding(journal_layout::specs::Record::run_bytes, journal_layout::specs::Layout::number_bytes))]
fn run_bytes(run: Run) -> [u8; 8]
    ensures bytes { result ≡ run_bytes run }
    ensures size { length result ≡ 8 }
{
    let mut bytes = [0; 8];
    LittleEndian::write_u32(&mut bytes, run.start);
    LittleEndian::write_u32(&mut bytes[4..], run.count);
    bytes
}

#[tactic(auto, unfolding(journal_layout::specs::Record::seq_bytes, journal_layout::specs::Layout::number_bytes))]
fn seq_bytes(seq: u32) -> [u8; 4]
    ensures bytes { result ≡ seq_bytes seq }
    ensures size { length result ≡ 4 }
{
    let mut bytes = [0; 4];
    LittleEndian::write_u32(&mut bytes, seq);
    bytes
}

// Adds a record's runs.
fn put_runs(bytes: &mut Vec<u8>, runs: &[Run])
    requires { vec_len bytes.old + 8 * length runs.now ≤ vec_capacity bytes.old }
    ensures items { bytes.new.items ≡ bytes.old.items ++ flat_map run_bytes runs.now }
    ensures len { vec_len bytes.new ≡ vec_len bytes.old + 8 * length runs.now }
    ensures capacity { vec_capacity bytes.old ≤ vec_capacity bytes.new }
{
    for run in runs {
        put(bytes, &run_bytes(*run));
    }
}

// Adds the numbers of cases.
fn put_seqs(bytes: &mut Vec<u8>, seqs: &[u32])
    requires { vec_len bytes.old + 4 * length seqs.now ≤ vec_capacity bytes.old }
    ensures items { bytes.new.items ≡ bytes.old.items ++ flat_map seq_bytes seqs.now }
    ensures len { vec_len bytes.new ≡ vec_len bytes.old + 4 * length seqs.now }
    ensures capacity { vec_capacity bytes.old ≤ vec_capacity bytes.new }
{
    for seq in seqs {
        put(bytes, &seq_bytes(*seq));
    }
}

// Adds a Store record after its gate, without its padding.
#[tactic(auto, unfolding(journal_layout::specs::Record::plain, journal_layout::specs::Record::body))]
fn put_store(bytes: &mut Vec<u8>, seq: u32, entry: &Entry, pinned: bool, size: u64)
    requires size { size ≡ record_size (Store (case_of entry.now)) }
    requires small { size ≤ 16777216 }
    requires capacity_left { vec_len bytes.old + plain_size (Store (case_of entry.now)) ≤ vec_capacity bytes.old + 1 }
    ensures items { bytes.new.items
        ≡ bytes.old.items ++ plain (Store (stored_as seq pinned (case_of entry.now))) }
    ensures capacity { vec_capacity bytes.old ≤ vec_capacity bytes.new }
{
    put(bytes, &head(1, size as u32));
    put(bytes, &facts(seq, entry, pinned));
    put_runs(bytes, entry.runs.runs());
    put(bytes, entry.name.as_slice());
}

/// A Store record without its gate, and the closed gate after it: as many bytes as the record has.
pub fn store_record(
    alloc: Global,
    seq: u32,
    entry: &Entry,
    size: u64,
) -> Result<Vec<u8>, AllocError>
    requires size { size ≡ record_size (Store (numbered seq (case_of entry.now))) }
    requires small { size ≤ 16777216 }
    ensures record { IfOk result (λ v. v.items
        ≡ behind_gate (Store (numbered seq (case_of entry.now))) ++ 0 ∷ []) }
    ensures size { IfOk result (λ v. vec_len v ≡ size) }
{
    let mut bytes = Vec::with_capacity(alloc, size as usize)?;
    put_store(&mut bytes, seq, entry, entry.pinned, size);
    fill(&mut bytes, size);
    Ok(bytes)
}

// The bytes of the entry's Store record, which are few.
fn short_size(entry: &Entry) -> u64
    requires { record_size (Store (case_of entry.now)) ≤ 16777216 }
    ensures { result ≡ record_size (Store (case_of entry.now)) }
{
    rounded(48 + 8 * entry.runs.runs().len() as u64 + entry.name.len() as u64)
}

/// Replaces the content of the buffer by the Store record of a case under this number, pinned or not, its gate open. If
/// the record fits into the buffer's capacity, it succeeds, and the capacity never shrinks.
pub fn spell_store(
    bytes: &mut Vec<u8>,
    seq: u32,
    entry: &Entry,
    pinned: bool,
) -> Result<(), AllocError>
    requires { record_size (Store (case_of entry.now)) ≤ 16777216 }
    ensures record { OnOk result (bytes.new.items
        ≡ spelling (Store (stored_as seq pinned (case_of entry.now)))) }
    ensures size { OnOk result (vec_len bytes.new ≡ record_size (Store (case_of entry.now))) }
    ensures succeeds { record_size (Store (case_of entry.now)) ≤ vec_capacity bytes.old → IsOk result }
    ensures capacity { vec_capacity bytes.old ≤ vec_capacity bytes.new }
{
    let size = short_size(entry);
    bytes.clear();
    bytes.reserve(size as usize)?;
    put(bytes, &[GATE_OPEN]);
    put_store(bytes, seq, entry, pinned, size);
    fill(bytes, size);
    Ok(())
}

// Adds a Drop record after its gate, without its padding.
#[tactic(auto, unfolding(journal_layout::specs::Record::plain, journal_layout::specs::Record::body, journal_layout::specs::Record::seq_bytes))]
fn put_drop(bytes: &mut Vec<u8>, seqs: &[u32], size: u64)
    requires size { size ≡ record_size (Drop seqs.now) }
    requires small { size ≤ 16777216 }
    requires capacity_left { vec_len bytes.old + plain_size (Drop seqs.now) ≤ vec_capacity bytes.old + 1 }
    ensures items { bytes.new.items ≡ bytes.old.items ++ plain (Drop seqs.now) }
    ensures capacity { vec_capacity bytes.old ≤ vec_capacity bytes.new }
{
    put(bytes, &head(2, size as u32));
    put(bytes, &seq_bytes(seqs.len() as u32));
    put_seqs(bytes, seqs);
}

/// A Drop record without its gate, and the closed gate after it.
pub fn drop_record(alloc: Global, seqs: &[u32], size: u64) -> Result<Vec<u8>, AllocError>
    requires size { size ≡ record_size (Drop seqs.now) }
    requires small { size ≤ 16777216 }
    ensures record { IfOk result (λ v. v.items ≡ behind_gate (Drop seqs.now) ++ 0 ∷ []) }
    ensures size { IfOk result (λ v. vec_len v ≡ size) }
{
    let mut bytes = Vec::with_capacity(alloc, size as usize)?;
    put_drop(&mut bytes, seqs, size);
    fill(&mut bytes, size);
    Ok(bytes)
}

// The numbers of a Label record's body.
#[tactic(auto, unfolding(journal_layout::specs::Layout::number_bytes))]
fn label_facts(seq: u32, label_length: u16) -> [u8; 8]
    ensures bytes { result ≡ number_bytes 4 seq ++ number_bytes 2 label_length ++ replicate 2 0 }
    ensures size { length result ≡ 8 }
{
    let mut bytes = [0; 8];
    LittleEndian::write_u32(&mut bytes, seq);
    LittleEndian::write_u16(&mut bytes[4..], label_length);
    bytes
}

// Adds a Label record after its gate, without its padding.
#[tactic(auto, unfolding(journal_layout::specs::Record::plain, journal_layout::specs::Record::body))]
fn put_label(bytes: &mut Vec<u8>, seq: u32, label: &[u8], size: u64)
    requires short { length label.now ≤ 64 }
    requires size { size ≡ record_size (Label seq label.now) }
    requires capacity_left { vec_len bytes.old + plain_size (Label seq label.now) ≤ vec_capacity bytes.old + 1 }
    ensures items { bytes.new.items ≡ bytes.old.items ++ plain (Label seq label.now) }
    ensures capacity { vec_capacity bytes.old ≤ vec_capacity bytes.new }
{
    put(bytes, &head(5, size as u32));
    put(bytes, &label_facts(seq, label.len() as u16));
    put(bytes, label);
}

/// A Label record without its gate, and the closed gate after it.
pub fn label_record(alloc: Global, seq: u32, label: &[u8], size: u64) -> Result<Vec<u8>, AllocError>
    requires short { length label.now ≤ 64 }
    requires size { size ≡ record_size (Label seq label.now) }
    ensures record { IfOk result (λ v. v.items ≡ behind_gate (Label seq label.now) ++ 0 ∷ []) }
    ensures size { IfOk result (λ v. vec_len v ≡ size) }
{
    let mut bytes = Vec::with_capacity(alloc, size as usize)?;
    put_label(&mut bytes, seq, label, size);
    fill(&mut bytes, size);
    Ok(bytes)
}

/// Replaces the content of the buffer by the record of a case's label, its gate open. If the record fits into the
/// buffer's capacity, it succeeds, and the capacity never shrinks.
pub fn spell_label(bytes: &mut Vec<u8>, seq: u32, label: &[u8]) -> Result<(), AllocError>
    requires { length label.now ≤ 64 }
    ensures record { OnOk result (bytes.new.items ≡ spelling (Label seq label.now)) }
    ensures size { OnOk result (vec_len bytes.new ≡ record_size (Label seq label.now)) }
    ensures succeeds { record_size (Label seq label.now) ≤ vec_capacity bytes.old → IsOk result }
    ensures capacity { vec_capacity bytes.old ≤ vec_capacity bytes.new }
{
    let size = label_size(label);
    bytes.clear();
    bytes.reserve(size as usize)?;
    put(bytes, &[GATE_OPEN]);
    put_label(bytes, seq, label, size);
    fill(bytes, size);
    Ok(())
}

/// The bytes of a Pin record.
pub const PIN_SIZE: u64 = 16;

/// A Pin record without its gate, and the closed gate after it. It takes no memory.
#[tactic(auto, unfolding(journal_layout::specs::Record::behind_gate, journal_layout::specs::Record::plain, journal_layout::specs::Record::body, journal_layout::specs::Layout::number_bytes))]
pub fn pin_record(seq: u32, flag: bool) -> [u8; 16]
    ensures record { result ≡ behind_gate (Pin seq flag) ++ 0 ∷ [] }
    ensures size { length result ≡ 16 }
{
    let mut bytes = [0; 16];
    bytes[0] = 3;
    LittleEndian::write_u32(&mut bytes[3..], PIN_SIZE as u32);
    LittleEndian::write_u32(&mut bytes[7..], seq);
    bytes[11] = u8::from(flag);
    bytes
}

/// A Next record, its gate open, and the closed gate after it. It takes no memory.
#[tactic(auto, unfolding(journal_layout::specs::Record::behind_gate, journal_layout::specs::Record::plain, journal_layout::specs::Record::body, journal_layout::specs::Layout::number_bytes))]
pub fn next_record(next: u64) -> [u8; 17]
    ensures record { result ≡ spelling (Next next) ++ 0 ∷ [] }
    ensures size { length result ≡ 17 }
{
    let mut bytes = [0; 17];
    bytes[0] = GATE_OPEN;
    bytes[1] = 4;
    LittleEndian::write_u32(&mut bytes[4..], 16);
    LittleEndian::write_u64(&mut bytes[8..], next);
    bytes
}
