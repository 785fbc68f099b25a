// A stream: an image on its way into the archive.
ghost use Rattle.std.specs.Prelude.{◌≡◌, ◌≤◌, ◌^◌, length};
ghost use Rattle.journal_layout.specs.Case.{case_of};
ghost use Rattle.intake.specs.StreamView.{case_from_parts, facts_of, parts_of};
ghost use Rattle.intake.specs.Needs.{longest_record};

use extents::RunList;
use journal_layout::{Entry, Kind, Label, Name};

/// The facts of an image that is streamed, and the bytes that it has taken so far.
#[derive(Drop)]
pub(crate) struct Stream {
    pub(crate) kind: Kind,
    pub(crate) name: Name,
    pub(crate) pid: u32,
    pub(crate) signal: u32,
    pub(crate) time: u64,
    // The bytes taken so far.
    pub(crate) length: u64,
    // The blocks that they have filled.
    pub(crate) runs: RunList,
}

impl Stream {
    ghost use Rattle.std.specs.Prelude.{[]};

    /// The bytes of the record of the case that the stream becomes, if its image lies in one run of blocks more than the stream has.
    pub(crate) fn longest_record(&self) -> u64
        requires { length self.now.runs ≤ 2 ^ 52 }
        ensures { result ≡ longest_record (facts_of self.now) }
    {
        let runs = self.runs.runs().len() as u64 + 1;
        (48 + 8 * runs + self.name.len() as u64 + 15) / 16 * 16
    }

    /// The case that the stream becomes, with no label. Its number is given later.
    pub(crate) fn into_entry(self) -> Entry
        ensures { case_of result ≡ case_from_parts (parts_of [] self) }
    {
        let Stream {
            kind,
            name,
            pid,
            signal,
            time,
            length,
            runs,
        } = self;
        Entry {
            seq: 0,
            kind,
            name,
            pid,
            signal,
            time,
            pinned: false,
            length,
            runs,
            label: Label::new(),
        }
    }
}
