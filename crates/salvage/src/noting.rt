// Notes about the copied cases, and the number of the next case.
ghost use Rattle.std.specs.Prelude.{◌≡◌, ◌<◌, ◌≤◌, IfSome, IsTrue, length, map};
ghost use Rattle.journal_layout.specs.Case.{case_of};
ghost use Rattle.salvage.specs.Noting.{AreNoted, IsNotedBy, greatest_copied, label_by, next_by, number_if};

use crate::cases::is_same_image;
use crate::records::{Fate, Read, Span, number_at};
use journal_layout::Entry;

// The number of a case, if it is copied.
fn number_if_copied(read: &Read) -> u32
    ensures { result ≡ number_if read.now.fate read.now.entry.seq }
{
    match read.fate {
        Fate::Copied => read.entry.seq,
        _ => 0,
    }
}

/// The highest number of a copied case; 0 if no case was copied.
pub(crate) fn last_of(reads: &[Read]) -> u32
    ensures { result ≡ greatest_copied reads.now }
{
    let mut last = 0u32;
    for read in reads {
        last = last.max(number_if_copied(read));
    }
    last
}

/// The number of the next case: no number is given again that a case has which is copied. That of the records which stand counts too, as
/// far as the first fault leaves it without a doubt.
pub(crate) fn next_by(next: u64, bound: u64, last: u32) -> u64
    ensures { result ≡ next_by next bound last }
{
    let stated = if bound > 0 { next.min(bound) } else { next };
    stated.max(u64::from(last) + 1)
}

// The text of a Label record, if all of it is there.
fn label_at(front: &[u8], label: Option<Span>) -> Option<&[u8]>
    ensures { IfSome result (λ text. text.now ≡ label_by front.now label) }
{
    let Some(place) = label else {
        return Some(b"");
    };
    if place.start >= front.len() {
        return None;
    }
    let size = number_at(front, place.start + 12) as usize;
    let start = place.start + 16;
    match front.get(start..start + size) {
        Some(text) => Some(text),
        None => None,
    }
}

// Whether a case is that of a read which is copied, pinned and labelled as the records say.
fn is_noted_by(front: &[u8], entry: &Entry, read: &Read) -> bool
    ensures { IsTrue result → IsNotedBy front.now (case_of entry.now) read.now }
{
    if !matches!(read.fate, Fate::Copied) || read.entry.seq != entry.seq {
        return false;
    }
    if !is_same_image(entry, &read.entry) || read.entry.pinned != entry.pinned {
        return false;
    }
    match label_at(front, read.label) {
        Some(text) => text == entry.label.as_slice(),
        None => false,
    }
}

// Which of the first reads, so many, is the last that is copied.
fn copied_before(reads: &[Read], count: usize) -> Option<usize>
    requires { count ≤ length reads.now }
    ensures { IfSome result (λ index. index < length reads.now) }
{
    for back in 0..count {
        let index = count - 1 - back;
        if matches!(reads[index].fate, Fate::Copied) {
            return Some(index);
        }
    }
    None
}

/// Whether each case is that of a read which is copied, pinned and labelled as the records say. The reads are in the order of their
/// numbers, the highest first, and the cases in that of theirs, the highest last.
pub(crate) fn are_noted(front: &[u8], reads: &[Read], entries: &[Entry]) -> bool
    ensures { IsTrue result → AreNoted front.now reads.now (map case_of entries.now) }
{
    let mut left = reads.len();
    for entry in entries {
        let Some(index) = copied_before(reads, left) else {
            return false;
        };
        if !is_noted_by(front, entry, &reads[index]) {
            return false;
        }
        left = index;
    }
    true
}
