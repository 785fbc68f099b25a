// Five scripts of calls, the disks that they begin on, and the states before them and after each change.
use crate::bench::{begin, formatted, opened};
use crate::script::{CORE, LONG, SHAPE, State, Step, image_of, script, states};
use disk_model::{Disk, MemDisk};
use intake::Archive;
use std::alloc::Global;
use std::test::Fail;

// How often a case with a long name was stored and deleted before the script: the records leave no room for another.
const TURNS: u32 = 21;

// The first finish writes the journal anew into half B. The later records fit after it.
static ANEW: [Step; 9] = [
    Step::Begin(1, CORE),
    Step::Put(1, CORE, 0, 4500),
    Step::Begin(0, LONG),
    Step::Finish(0, 22),
    Step::Put(1, CORE, 4500, 5000),
    Step::Finish(1, 23),
    Step::Pin(23, true),
    Step::Read(23, CORE),
    Step::Delete(22),
];

static ANEW_STATES: [State; 5] = [
    State {
        cases: &[],
        next: 22,
        labels: &[],
        version: 1,
    },
    State {
        cases: &[(22, LONG, false)],
        next: 23,
        labels: &[],
        version: 1,
    },
    State {
        cases: &[(22, LONG, false), (23, CORE, false)],
        next: 24,
        labels: &[],
        version: 1,
    },
    State {
        cases: &[(22, LONG, false), (23, CORE, true)],
        next: 24,
        labels: &[],
        version: 1,
    },
    State {
        cases: &[(23, CORE, true)],
        next: 24,
        labels: &[],
        version: 1,
    },
];

// How often the case's pin was set or taken back before the script: here too the records leave no room for another.
const FLIPS: u32 = 242;

// The pin writes the journal anew into half B. The later records fit after it.
static PINNED: [Step; 4] = [
    Step::Pin(1, true),
    Step::Begin(1, CORE),
    Step::Put(1, CORE, 0, 5000),
    Step::Finish(1, 2),
];

static PINNED_STATES: [State; 3] = [
    State {
        cases: &[(1, LONG, false)],
        next: 2,
        labels: &[],
        version: 1,
    },
    State {
        cases: &[(1, LONG, true)],
        next: 2,
        labels: &[],
        version: 1,
    },
    State {
        cases: &[(1, LONG, true), (2, CORE, false)],
        next: 3,
        labels: &[],
        version: 1,
    },
];

// The deletion does. Only the record of the next number shows it then.
static DELETED: [Step; 4] = [
    Step::Delete(1),
    Step::Begin(1, CORE),
    Step::Put(1, CORE, 0, 5000),
    Step::Finish(1, 2),
];

static DELETED_STATES: [State; 3] = [
    State {
        cases: &[(1, LONG, false)],
        next: 2,
        labels: &[],
        version: 1,
    },
    State {
        cases: &[],
        next: 2,
        labels: &[],
        version: 1,
    },
    State {
        cases: &[(2, CORE, false)],
        next: 3,
        labels: &[],
        version: 1,
    },
];

// As long as a label may be, of the bytes of open gates.
const LONGEST: [u8; 64] = [0xa5; 64];

// A stream is open while the archive is upgraded.
static LABELS: [Step; 12] = [
    Step::Begin(0, LONG),
    Step::Finish(0, 1),
    Step::Begin(1, CORE),
    Step::Put(1, CORE, 0, 4500),
    Step::Upgrade,
    Step::Label(1, &LONGEST),
    Step::Put(1, CORE, 4500, 5000),
    Step::Finish(1, 2),
    Step::Label(2, b"ab"),
    Step::Label(1, b""),
    Step::Read(2, CORE),
    Step::Delete(1),
];

static LABEL_STATES: [State; 8] = [
    State {
        cases: &[],
        next: 1,
        labels: &[],
        version: 1,
    },
    State {
        cases: &[(1, LONG, false)],
        next: 2,
        labels: &[],
        version: 1,
    },
    State {
        cases: &[(1, LONG, false)],
        next: 2,
        labels: &[],
        version: 2,
    },
    State {
        cases: &[(1, LONG, false)],
        next: 2,
        labels: &[(1, &LONGEST)],
        version: 2,
    },
    State {
        cases: &[(1, LONG, false), (2, CORE, false)],
        next: 3,
        labels: &[(1, &LONGEST)],
        version: 2,
    },
    State {
        cases: &[(1, LONG, false), (2, CORE, false)],
        next: 3,
        labels: &[(1, &LONGEST), (2, b"ab")],
        version: 2,
    },
    State {
        cases: &[(1, LONG, false), (2, CORE, false)],
        next: 3,
        labels: &[(2, b"ab")],
        version: 2,
    },
    State {
        cases: &[(2, CORE, false)],
        next: 3,
        labels: &[(2, b"ab")],
        version: 2,
    },
];

// Stores a case with a long name and deletes it, over and over.
fn turn<D: Disk>(archive: &mut Archive<D>) -> Result<(), Fail> {
    for number in 0..TURNS {
        let seq = number.saturating_add(1);
        let begun = begin(archive, 0, image_of(LONG).name)?;
        if begun != Ok(()) || archive.finish(0) != Ok(seq) || archive.delete(seq) != Ok(()) {
            return Err(Fail::from("a case was not stored or not deleted"));
        }
    }
    Ok(())
}

// The disk of a fresh archive after these turns.
fn turned(alloc: Global) -> Result<MemDisk, Fail> {
    let mut archive = opened(alloc, formatted(alloc, SHAPE)?)?;
    turn(&mut archive)?;
    Ok(archive.close())
}

// Stores a case, and sets and takes back its pin, over and over.
fn flip<D: Disk>(archive: &mut Archive<D>) -> Result<(), Fail> {
    let begun = begin(archive, 0, image_of(LONG).name)?;
    if begun != Ok(()) || archive.finish(0) != Ok(1) {
        return Err(Fail::from("the case was not stored"));
    }
    for number in 0..FLIPS {
        if archive.pin(1, number % 2 == 0) != Ok(()) {
            return Err(Fail::from("the case was not pinned or unpinned"));
        }
    }
    Ok(())
}

// The disk of a fresh archive of one case whose pin was set and taken back, over and over.
fn flipped(alloc: Global) -> Result<MemDisk, Fail> {
    let mut archive = opened(alloc, formatted(alloc, SHAPE)?)?;
    flip(&mut archive)?;
    Ok(archive.close())
}

/// A script, and the disk that it begins on.
#[derive(Clone, Copy)]
pub enum Course {
    /// Eight streams in turn, on a fresh archive.
    Streams,
    /// A store that writes a full half anew, and the calls after it.
    Anew,
    /// A pin that does, and the calls after it.
    Pinned,
    /// A deletion that does, and the calls after it.
    Deleted,
    /// An archive that is upgraded, and labels, on a fresh archive.
    Labels,
}

impl Course {
    /// The script.
    pub fn steps(self) -> &'static [Step] {
        match self {
            Course::Streams => script(),
            Course::Anew => &ANEW,
            Course::Pinned => &PINNED,
            Course::Deleted => &DELETED,
            Course::Labels => &LABELS,
        }
    }

    /// The states before the script, and after each call that changes the cases.
    pub fn states(self) -> &'static [State] {
        match self {
            Course::Streams => states(),
            Course::Anew => &ANEW_STATES,
            Course::Pinned => &PINNED_STATES,
            Course::Deleted => &DELETED_STATES,
            Course::Labels => &LABEL_STATES,
        }
    }

    /// How many calls of the script change the cases.
    pub fn changes(self) -> usize {
        self.states().len().saturating_sub(1)
    }

    /// A disk as the script finds it.
    pub fn begins(self, alloc: Global) -> Result<MemDisk, Fail> {
        match self {
            Course::Streams | Course::Labels => formatted(alloc, SHAPE),
            Course::Anew => turned(alloc),
            Course::Pinned | Course::Deleted => flipped(alloc),
        }
    }
}
