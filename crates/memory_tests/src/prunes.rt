//! The cases that a prune drops of archives with six cases, next to lists that were worked out by hand.
ghost use Rattle.std.specs.Prelude.{◌≡◌};
ghost use Rattle.pruning.specs.Cases.{number};

use pruning::{Content, LiveCase, MappedFile, Pruning, prune};
use retention::{Brief, Policy};
use std::alloc::{AllocError, Global};
use std::process::Abort;
use std::test::Fail;

/// A case without its number.
#[derive(Clone, Copy)]
struct Row {
    name: &'static [u8],
    is_pinned: bool,
    content: Content<'static, 'static>,
}

/// Cases 1 to 6, how many cores the policy keeps, and the cases that are dropped.
struct Scenario {
    rows: &'static [Row],
    keep: Option<u64>,
    dropped: &'static [u32],
    is_unmet: bool,
}

const FOO_AND_MORE: &[MappedFile<'static>] = &[
    MappedFile {
        name: b"/usr/bin/foo",
        told: Some(b"\x2c\xf0\x8c"),
        used: Some(b"\x2c\xf0\x8c"),
    },
    MappedFile {
        name: b"/usr/lib/libmore.so",
        told: None,
        used: None,
    },
];

const FOO_NOT_STORED: &[MappedFile<'static>] = &[MappedFile {
    name: b"/usr/bin/foo",
    told: Some(b"\x2c\xf0\x8c"),
    used: None,
}];

const FOO_BY_ITS_PATH: &[MappedFile<'static>] = &[MappedFile {
    name: b"/usr/bin/foo",
    told: None,
    used: Some(b"\x2c\xf0\x8c"),
}];

const BAR: &[MappedFile<'static>] = &[MappedFile {
    name: b"/usr/bin/bar",
    told: Some(b"\xb3\x88"),
    used: Some(b"\xb3\x88"),
}];

const NAMED_AS_A_BUILD: &[MappedFile<'static>] = &[MappedFile {
    name: b".build-id/b3/88",
    told: None,
    used: None,
}];

static SCENARIOS_1: [Scenario; 4] = [
    // No core needs the second build. An executable under a path stays.
    Scenario {
        rows: &[
            Row {
                name: b"core",
                is_pinned: false,
                content: Content::Core(FOO_AND_MORE),
            },
            Row {
                name: b".build-id/2c/f08c",
                is_pinned: false,
                content: Content::Executable,
            },
            Row {
                name: b".build-id/2c/f08c.debug",
                is_pinned: false,
                content: Content::Executable,
            },
            Row {
                name: b".build-id/b3/88",
                is_pinned: false,
                content: Content::Executable,
            },
            Row {
                name: b".build-id/b3/88.debug",
                is_pinned: false,
                content: Content::Executable,
            },
            Row {
                name: b"/usr/bin/foo",
                is_pinned: false,
                content: Content::Executable,
            },
        ],
        keep: None,
        dropped: &[4, 5],
        is_unmet: false,
    },
    // With its last core a build goes.
    Scenario {
        rows: &[
            Row {
                name: b"core",
                is_pinned: false,
                content: Content::Core(FOO_AND_MORE),
            },
            Row {
                name: b".build-id/2c/f08c",
                is_pinned: false,
                content: Content::Executable,
            },
            Row {
                name: b".build-id/2c/f08c.debug",
                is_pinned: false,
                content: Content::Executable,
            },
            Row {
                name: b".build-id/b3/88",
                is_pinned: false,
                content: Content::Executable,
            },
            Row {
                name: b".build-id/b3/88.debug",
                is_pinned: false,
                content: Content::Executable,
            },
            Row {
                name: b"/usr/bin/foo",
                is_pinned: false,
                content: Content::Executable,
            },
        ],
        keep: Some(0),
        dropped: &[1, 2, 3, 4, 5],
        is_unmet: false,
    },
    // Pinned cases stay: a build, and the core that needs the other one.
    Scenario {
        rows: &[
            Row {
                name: b"core",
                is_pinned: true,
                content: Content::Core(FOO_AND_MORE),
            },
            Row {
                name: b".build-id/2c/f08c",
                is_pinned: false,
                content: Content::Executable,
            },
            Row {
                name: b".build-id/2c/f08c.debug",
                is_pinned: false,
                content: Content::Executable,
            },
            Row {
                name: b".build-id/b3/88",
                is_pinned: true,
                content: Content::Executable,
            },
            Row {
                name: b".build-id/b3/88.debug",
                is_pinned: false,
                content: Content::Executable,
            },
            Row {
                name: b"/usr/bin/foo",
                is_pinned: false,
                content: Content::Executable,
            },
        ],
        keep: Some(0),
        dropped: &[5],
        is_unmet: true,
    },
    // Names that look like those of builds: upper-case digits, no byte behind the first, an odd digit, and a folder before
    // them.
    Scenario {
        rows: &[
            Row {
                name: b".build-id/B3/88",
                is_pinned: false,
                content: Content::Executable,
            },
            Row {
                name: b".build-id/b3/",
                is_pinned: false,
                content: Content::Executable,
            },
            Row {
                name: b".build-id/b3/8",
                is_pinned: false,
                content: Content::Executable,
            },
            Row {
                name: b"x/.build-id/b3/88",
                is_pinned: false,
                content: Content::Executable,
            },
            Row {
                name: b".build-id/b3/88",
                is_pinned: false,
                content: Content::Executable,
            },
            Row {
                name: b".build-id/b3/88.debug.debug",
                is_pinned: false,
                content: Content::Executable,
            },
        ],
        keep: None,
        dropped: &[5],
        is_unmet: false,
    },
];

static SCENARIOS_2: [Scenario; 4] = [
    // The core has no ID for the file, which has its executable by its path: the debug file of this one stays.
    Scenario {
        rows: &[
            Row {
                name: b"core",
                is_pinned: false,
                content: Content::Core(FOO_BY_ITS_PATH),
            },
            Row {
                name: b"/usr/bin/foo",
                is_pinned: false,
                content: Content::Executable,
            },
            Row {
                name: b".build-id/2c/f08c.debug",
                is_pinned: false,
                content: Content::Executable,
            },
            Row {
                name: b".build-id/b3/88.debug",
                is_pinned: false,
                content: Content::Executable,
            },
            Row {
                name: b"core",
                is_pinned: false,
                content: Content::Core(&[]),
            },
            Row {
                name: b".build-id/b3/88",
                is_pinned: false,
                content: Content::Executable,
            },
        ],
        keep: None,
        dropped: &[4, 6],
        is_unmet: false,
    },
    // A file that is mapped under the name of a build: the executable stays that has this name, and no debug file.
    Scenario {
        rows: &[
            Row {
                name: b".build-id/b3/88",
                is_pinned: false,
                content: Content::Executable,
            },
            Row {
                name: b".build-id/b3/88.debug",
                is_pinned: false,
                content: Content::Executable,
            },
            Row {
                name: b"core",
                is_pinned: false,
                content: Content::Core(NAMED_AS_A_BUILD),
            },
            Row {
                name: b".build-id/2c/f08c",
                is_pinned: false,
                content: Content::Executable,
            },
            Row {
                name: b".build-id/2c/f08c.debug",
                is_pinned: false,
                content: Content::Executable,
            },
            Row {
                name: b"core",
                is_pinned: false,
                content: Content::Core(&[]),
            },
        ],
        keep: None,
        dropped: &[2, 4, 5],
        is_unmet: false,
    },
    // Cores alone are counted, and the newest stay.
    Scenario {
        rows: &[
            Row {
                name: b"core",
                is_pinned: false,
                content: Content::Core(FOO_NOT_STORED),
            },
            Row {
                name: b".build-id/2c/f08c",
                is_pinned: false,
                content: Content::Executable,
            },
            Row {
                name: b"core",
                is_pinned: false,
                content: Content::Core(BAR),
            },
            Row {
                name: b".build-id/b3/88",
                is_pinned: false,
                content: Content::Executable,
            },
            Row {
                name: b"core",
                is_pinned: false,
                content: Content::Core(&[]),
            },
            Row {
                name: b".build-id/b3/88.debug",
                is_pinned: false,
                content: Content::Executable,
            },
        ],
        keep: Some(2),
        dropped: &[1, 2],
        is_unmet: false,
    },
    // Each core is looked at, also behind one without files.
    Scenario {
        rows: &[
            Row {
                name: b"core",
                is_pinned: false,
                content: Content::Core(&[]),
            },
            Row {
                name: b"core",
                is_pinned: false,
                content: Content::Core(BAR),
            },
            Row {
                name: b".build-id/2c/f08c",
                is_pinned: false,
                content: Content::Executable,
            },
            Row {
                name: b".build-id/b3/88",
                is_pinned: false,
                content: Content::Executable,
            },
            Row {
                name: b"core",
                is_pinned: false,
                content: Content::Core(FOO_NOT_STORED),
            },
            Row {
                name: b".build-id/b3/88.debug",
                is_pinned: false,
                content: Content::Executable,
            },
        ],
        keep: None,
        dropped: &[],
        is_unmet: false,
    },
];

fn case(seq: u32, row: &Row) -> LiveCase<'static, 'static>
    ensures { number result ≡ seq }
{
    LiveCase {
        name: row.name,
        brief: Brief {
            seq,
            time: u64::from(seq),
            length: 4096,
            pinned: row.is_pinned,
        },
        content: row.content,
    }
}

fn pruned(alloc: Global, scenario: &Scenario) -> Result<Pruning, AllocError> {
    let policy = Policy {
        keep: scenario.keep,
        bytes: None,
        before: None,
    };
    let [first, second, third, fourth, fifth, sixth] = scenario.rows else {
        return prune(alloc, &[], &policy);
    };
    let cases = [
        case(1, first),
        case(2, second),
        case(3, third),
        case(4, fourth),
        case(5, fifth),
        case(6, sixth),
    ];
    prune(alloc, &cases, &policy)
}

fn drops<R: Abort>(rt: &R, alloc: Global, scenario: &Scenario) -> Result<(), AllocError> {
    let pruning = pruned(alloc, scenario)?;
    assert!(rt; scenario.rows.len() == 6 && is_wanted(&pruning, scenario));
    Ok(())
}

fn is_wanted(pruning: &Pruning, scenario: &Scenario) -> bool {
    pruning.dropped.as_slice() == scenario.dropped && pruning.unmet == scenario.is_unmet
}

#[test]
fn builds_go_that_no_core_needs(rt: HostRuntime) -> Result<(), Fail> {
    for scenario in &SCENARIOS_1 {
        drops(&rt, rt.alloc(), scenario)?;
    }
    for scenario in &SCENARIOS_2 {
        drops(&rt, rt.alloc(), scenario)?;
    }
    Ok(())
}
