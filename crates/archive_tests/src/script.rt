// A script of calls with eight streams in turn, and the cases before it and after each call that changes them.
use journal_layout::{Kind, Shape};
use retention::Policy;

/// Nine data blocks: at one moment all of them are in use.
pub const SHAPE: Shape = Shape {
    half_blocks: 1,
    data_blocks: 9,
};

/// An image: its kind and name, how many bytes it has, and the seed of its bytes.
#[derive(Clone, Copy)]
pub struct Image {
    pub kind: Kind,
    pub name: &'static [u8],
    pub pid: u32,
    pub signal: u32,
    pub time: u64,
    pub length: u64,
    pub seed: u8,
}

// The images of the scripts, by their numbers.
const A: u8 = 0;

const B: u8 = 1;

const C: u8 = 2;

const D: u8 = 3;

const E: u8 = 4;

const F: u8 = 5;

const G: u8 = 6;

const H: u8 = 7;

const I: u8 = 8;

/// An executable of no bytes, whose name is as long as it may be.
pub const LONG: u8 = 9;

/// A core of two blocks.
pub const CORE: u8 = 10;

static IMAGES: [Image; 11] = [
    Image {
        kind: Kind::Core,
        name: b"a",
        pid: 4242,
        signal: 11,
        time: 500,
        length: 4196,
        seed: 0xa5,
    },
    Image {
        kind: Kind::Exec,
        name: b"/bin/b",
        pid: 0,
        signal: 0,
        time: 0,
        length: 4096,
        seed: 2,
    },
    Image {
        kind: Kind::Core,
        name: b"core.c.7",
        pid: 7,
        signal: 6,
        time: 300,
        length: 5,
        seed: 3,
    },
    Image {
        kind: Kind::Core,
        name: b"core.d.4294967295",
        pid: 4_294_967_295,
        signal: 4_294_967_295,
        time: 18_446_744_073_709_551_615,
        length: 8199,
        seed: 0x37,
    },
    Image {
        kind: Kind::Exec,
        name: b"/e",
        pid: 0,
        signal: 0,
        time: 0,
        length: 1,
        seed: 5,
    },
    Image {
        kind: Kind::Core,
        name: b"f",
        pid: 1,
        signal: 9,
        time: 200,
        length: 0,
        seed: 6,
    },
    Image {
        kind: Kind::Core,
        name: b"g",
        pid: 2,
        signal: 9,
        time: 250,
        length: 4097,
        seed: 7,
    },
    Image {
        kind: Kind::Core,
        name: b"h",
        pid: 8,
        signal: 4,
        time: 400,
        length: 4500,
        seed: 8,
    },
    Image {
        kind: Kind::Exec,
        name: b"/usr/bin/i",
        pid: 0,
        signal: 0,
        time: 0,
        length: 8192,
        seed: 9,
    },
    Image {
        kind: Kind::Exec,
        name: &[b'l'; 128],
        pid: 0,
        signal: 0,
        time: 0,
        length: 0,
        seed: 0,
    },
    Image {
        kind: Kind::Core,
        name: b"core.c.7",
        pid: 7,
        signal: 6,
        time: 300,
        length: 5000,
        seed: 3,
    },
];

/// The image of a number.
pub fn image_of(number: u8) -> &'static Image {
    match IMAGES.get(usize::from(number)) {
        Some(image) => image,
        None => &IMAGES[0],
    }
}

/// A call. An image is named by its number.
#[derive(Clone, Copy)]
pub enum Step {
    /// The stream of the image begins in the slot.
    Begin(u8, u8),
    /// The stream in the slot takes the image's bytes from the one place up to the other.
    Put(u8, u8, u64, u64),
    /// The stream in the slot is dropped.
    Abandon(u8),
    /// The case of this number has the image.
    Read(u32, u8),
    /// The stream in the slot becomes the case of this number.
    Finish(u8, u32),
    /// The case of this number is pinned or not.
    Pin(u32, bool),
    /// The case of this number ends.
    Delete(u32),
    /// The case of this number gets the label.
    Label(u32, &'static [u8]),
    /// The archive is brought to version 2 of the layout.
    Upgrade,
    /// By the policy these cases end.
    Retire(Policy, &'static [u32]),
}

impl Step {
    /// Whether the call changes the cases.
    pub fn changes(&self) -> bool {
        matches!(
            self,
            Step::Finish(..)
                | Step::Pin(..)
                | Step::Delete(_)
                | Step::Label(..)
                | Step::Upgrade
                | Step::Retire(..)
        )
    }
}

static SCRIPT: [Step; 46] = [
    Step::Begin(0, A),
    Step::Begin(1, B),
    Step::Begin(2, C),
    Step::Begin(3, D),
    Step::Begin(4, E),
    Step::Begin(5, F),
    Step::Begin(6, G),
    Step::Begin(7, H),
    Step::Put(0, A, 0, 4096),
    Step::Put(1, B, 0, 4096),
    Step::Put(2, C, 0, 5),
    Step::Put(3, D, 0, 5000),
    Step::Put(6, G, 0, 4097),
    Step::Finish(1, 1),
    Step::Put(0, A, 4096, 4196),
    Step::Put(7, H, 0, 4000),
    Step::Finish(2, 2),
    Step::Pin(1, true),
    Step::Finish(0, 3),
    Step::Begin(0, I),
    Step::Delete(2),
    Step::Put(7, H, 4000, 4500),
    Step::Finish(5, 4),
    // There are three cases, and two are to stay: the oldest one that is not pinned is deleted.
    Step::Retire(
        Policy {
            keep: Some(2),
            bytes: None,
            before: None,
        },
        &[3],
    ),
    Step::Put(3, D, 5000, 8199),
    Step::Abandon(6),
    Step::Finish(3, 5),
    Step::Put(4, E, 0, 1),
    Step::Read(1, B),
    Step::Put(0, I, 0, 4096),
    Step::Finish(4, 6),
    Step::Pin(1, false),
    Step::Pin(6, true),
    // Cases 1, 4 and 6 are from before that time, and case 6 is pinned.
    Step::Retire(
        Policy {
            keep: None,
            bytes: None,
            before: Some(250),
        },
        &[1, 4],
    ),
    Step::Put(0, I, 4096, 8192),
    Step::Finish(7, 7),
    Step::Finish(0, 8),
    Step::Begin(0, A),
    Step::Put(0, A, 0, 4196),
    Step::Delete(5),
    Step::Finish(0, 9),
    Step::Read(7, H),
    // There are 16,889 bytes; without the oldest one that is not pinned they are 12,389.
    Step::Retire(
        Policy {
            keep: None,
            bytes: Some(12_389),
            before: None,
        },
        &[7],
    ),
    Step::Read(9, A),
    Step::Pin(6, false),
    Step::Delete(6),
];

/// The script.
pub fn script() -> &'static [Step] {
    &SCRIPT
}

/// The number of each case, the number of its image, and its pin, the number of the next one, the labels that are not empty, and the version of
/// the layout.
pub struct State {
    pub cases: &'static [(u32, u8, bool)],
    pub next: u32,
    pub labels: &'static [(u32, &'static [u8])],
    pub version: u32,
}

static STATES: [State; 20] = [
    State {
        cases: &[],
        next: 1,
        labels: &[],
        version: 1,
    },
    State {
        cases: &[(1, B, false)],
        next: 2,
        labels: &[],
        version: 1,
    },
    State {
        cases: &[(1, B, false), (2, C, false)],
        next: 3,
        labels: &[],
        version: 1,
    },
    State {
        cases: &[(1, B, true), (2, C, false)],
        next: 3,
        labels: &[],
        version: 1,
    },
    State {
        cases: &[(1, B, true), (2, C, false), (3, A, false)],
        next: 4,
        labels: &[],
        version: 1,
    },
    State {
        cases: &[(1, B, true), (3, A, false)],
        next: 4,
        labels: &[],
        version: 1,
    },
    State {
        cases: &[(1, B, true), (3, A, false), (4, F, false)],
        next: 5,
        labels: &[],
        version: 1,
    },
    State {
        cases: &[(1, B, true), (4, F, false)],
        next: 5,
        labels: &[],
        version: 1,
    },
    State {
        cases: &[(1, B, true), (4, F, false), (5, D, false)],
        next: 6,
        labels: &[],
        version: 1,
    },
    State {
        cases: &[(1, B, true), (4, F, false), (5, D, false), (6, E, false)],
        next: 7,
        labels: &[],
        version: 1,
    },
    State {
        cases: &[(1, B, false), (4, F, false), (5, D, false), (6, E, false)],
        next: 7,
        labels: &[],
        version: 1,
    },
    State {
        cases: &[(1, B, false), (4, F, false), (5, D, false), (6, E, true)],
        next: 7,
        labels: &[],
        version: 1,
    },
    State {
        cases: &[(5, D, false), (6, E, true)],
        next: 7,
        labels: &[],
        version: 1,
    },
    State {
        cases: &[(5, D, false), (6, E, true), (7, H, false)],
        next: 8,
        labels: &[],
        version: 1,
    },
    State {
        cases: &[(5, D, false), (6, E, true), (7, H, false), (8, I, false)],
        next: 9,
        labels: &[],
        version: 1,
    },
    State {
        cases: &[(6, E, true), (7, H, false), (8, I, false)],
        next: 9,
        labels: &[],
        version: 1,
    },
    State {
        cases: &[(6, E, true), (7, H, false), (8, I, false), (9, A, false)],
        next: 10,
        labels: &[],
        version: 1,
    },
    State {
        cases: &[(6, E, true), (8, I, false), (9, A, false)],
        next: 10,
        labels: &[],
        version: 1,
    },
    State {
        cases: &[(6, E, false), (8, I, false), (9, A, false)],
        next: 10,
        labels: &[],
        version: 1,
    },
    State {
        cases: &[(8, I, false), (9, A, false)],
        next: 10,
        labels: &[],
        version: 1,
    },
];

/// The states before the script, and after each call that changes the cases.
pub fn states() -> &'static [State] {
    &STATES
}
