// Whether a journal has the cases of another.
ghost use Rattle.std.specs.Prelude.{◌≡◌, ◌↔◌, IsTrue};
ghost use Rattle.journal_layout.specs.Case.{case_of};
ghost use Rattle.salvage.specs.Cases.{HasCase, IsSameImage};

use case_journal::Journal;
use extents::RunList;
use journal_layout::Entry;

// Whether two entries say an image of the same process or file.
fn is_same_origin(one: &Entry, other: &Entry) -> bool
    ensures { IsTrue result ↔ (case_of other.now).origin ≡ (case_of one.now).origin }
{
    if one.kind != other.kind {
        return false;
    }
    if one.pid != other.pid {
        return false;
    }
    if one.signal != other.signal {
        return false;
    }
    if one.time != other.time {
        return false;
    }
    one.name.as_slice() == other.name.as_slice()
}

// Whether two lists have the same blocks.
fn are_same_blocks(one: &RunList, other: &RunList) -> bool
    ensures { IsTrue result ↔ other.now ≡ one.now }
{
    one.runs() == other.runs()
}

/// Whether two entries say the same image, and the same blocks of it.
pub(crate) fn is_same_image(one: &Entry, other: &Entry) -> bool
    ensures { IsTrue result ↔ IsSameImage (case_of one.now) (case_of other.now) }
{
    if !is_same_origin(one, other) {
        return false;
    }
    if one.length != other.length {
        return false;
    }
    are_same_blocks(&one.runs, &other.runs)
}

/// Whether a journal has a case under its number, with the same facts and the same blocks.
pub(crate) fn has_case(journal: &Journal, entry: &Entry) -> bool
    ensures { IsTrue result ↔ HasCase journal.now.standing.cases (case_of entry.now) }
{
    match journal.entry(entry.seq) {
        Some(found) => is_same_image(entry, found),
        None => false,
    }
}
