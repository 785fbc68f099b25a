//! The progress of a command: the text that is shown on a terminal,
//! and when; and that each byte that passes is reported once.
use diagnostics::{Call, Onlooker, Trouble};
use disk_model::{Disk, DiskFault, MemDisk};
use script_streams::{Output, Reply, WriteOutput};
use shown_progress::{CountedDisk, CountedInput, CountedOutput, Listener, Meter, Work, print_work};
use std::alloc::Global;
use std::cell::Cell;
use std::io::Read;
use std::process::Abort;
use std::test::Fail;
use std::time::{Clock, Duration};
use std::{io, str};

// A clock that stands still until it is set, in milliseconds.
#[derive(Drop)]
struct Hand {
    millis: Cell<u64>,
}

impl Clock for Hand {
    fn monotonic(&self) -> io::Result<Duration> {
        Ok(Duration::from_millis(self.millis.get()))
    }

    fn since_1970(&self) -> io::Result<Duration> {
        Ok(Duration::from_millis(self.millis.get()))
    }
}

// The reports that an onlooker got.
#[derive(Default, Drop)]
struct Heard {
    works: u32,
    done: u64,
    ends: u32,
    troubles: u32,
}

impl Onlooker for Heard {
    fn begin(&mut self, _work: &'static str, _whole: Option<u64>) {
        self.works = self.works.saturating_add(1);
    }

    fn advance(&mut self, count: u64) {
        self.done = self.done.saturating_add(count);
    }

    fn end(&mut self) {
        self.ends = self.ends.saturating_add(1);
    }

    fn fail(&mut self, _trouble: Trouble) {
        self.troubles = self.troubles.saturating_add(1);
    }
}

const TROUBLE: Trouble = Trouble {
    call: Call::Write,
    errno: Some(28),
};

// A piece of work, the milliseconds since it began, and the text for it.
type Row = (&'static str, Option<u64>, u64, u64, &'static str);

static ROWS: [Row; 8] = [
    ("stores", None, 0, 1_000, "stores"),
    (
        "stores",
        None,
        3_145_728,
        1_500,
        "stores 3.0 MiB, 2.0 MiB/s",
    ),
    (
        "stores",
        Some(4_096),
        0,
        2_000,
        "stores 0 B of 4.0 KiB, 0 %, 0 B/s, 0 s left",
    ),
    (
        "makes room",
        Some(4_294_967_296),
        1_073_741_824,
        2_000,
        "makes room 1.0 GiB of 4.0 GiB, 25 %, 512.0 MiB/s, 6 s left",
    ),
    (
        "stores",
        Some(1_000_000),
        1_000,
        1_000,
        "stores 1000 B of 976.5 KiB, 0 %, 1000 B/s, 16 min 39 s left",
    ),
    (
        "stores",
        Some(100_000_000),
        1_000,
        1_000,
        "stores 1000 B of 95.3 MiB, 0 %, 1000 B/s, 27 h 46 min left",
    ),
    (
        "stores",
        Some(10),
        20,
        1_000,
        "stores 20 B of 10 B, 200 %, 20 B/s, 0 s left",
    ),
    (
        "copies",
        None,
        u64::MAX,
        0,
        "copies 17179869183.9 GiB, 0 B/s",
    ),
];

// The text for a piece of work.
fn told(alloc: Global, work: Work, millis: u64) -> Result<Vec<u8>, Fail> {
    let mut output = WriteOutput::new(Vec::new(alloc));
    let mut reply = Reply::new(&mut output);
    print_work(&mut reply, work, millis);
    reply.finish()?;
    Ok(output.into_inner())
}

#[test]
fn a_piece_of_work_in_words(rt: HostRuntime) -> Result<(), Fail> {
    for (name, whole, done, millis, words) in &ROWS {
        let work = Work {
            name: *name,
            whole: *whole,
            done: *done,
        };
        let text = told(rt.alloc(), work, *millis)?;
        assert_eq!(rt; str::from_utf8(&text), Ok(*words));
    }
    Ok(())
}

// Advances by a byte at a time of the clock.
fn advance_at<W: Onlooker>(hand: &Hand, meter: &mut W, millis: u64) {
    hand.millis.set(millis);
    meter.advance(1);
}

#[test]
fn the_line_is_shown_from_the_first_second_on(rt: HostRuntime) -> Result<(), Fail> {
    let hand = Hand {
        millis: Cell::new(5_000),
    };
    let mut shown = Vec::new(rt.alloc());
    let mut meter = Meter::new(&hand, Some(WriteOutput::new(&mut shown)));
    meter.begin("stores", Some(4));
    for millis in [5_999, 6_000, 6_099, 6_100] {
        advance_at(&hand, &mut meter, millis);
    }
    meter.end();
    advance_at(&hand, &mut meter, 9_000);
    meter.end();
    drop(meter);
    assert_eq!(rt;
        str::from_utf8(&shown),
        Ok(concat!(
            "\r\x1b[Kcorekeep stores 2 B of 4 B, 50 %, 2 B/s, 1 s left",
            "\r\x1b[Kcorekeep stores 4 B of 4 B, 100 %, 3 B/s, 0 s left",
            "\r\x1b[K",
        ))
    );
    Ok(())
}

#[test]
fn the_next_work_begins_anew(rt: HostRuntime) -> Result<(), Fail> {
    let hand = Hand {
        millis: Cell::new(0),
    };
    let mut shown = Vec::new(rt.alloc());
    let mut meter = Meter::new(&hand, Some(WriteOutput::new(&mut shown)));
    meter.begin("makes room", Some(4));
    advance_at(&hand, &mut meter, 900);
    meter.end();
    meter.begin("copies", None);
    advance_at(&hand, &mut meter, 1_800);
    advance_at(&hand, &mut meter, 2_900);
    drop(meter);
    assert_eq!(rt;
        str::from_utf8(&shown),
        Ok("\r\x1b[Kcorekeep copies 2 B, 1 B/s")
    );
    Ok(())
}

#[test]
fn nothing_is_shown_without_a_terminal(rt: HostRuntime) {
    let hand = Hand {
        millis: Cell::new(0),
    };
    let mut meter: Meter<'_, Hand, WriteOutput<Vec<u8>>> = Meter::new(&hand, None);
    meter.begin("stores", None);
    advance_at(&hand, &mut meter, 2_000);
    meter.end();
    meter.fail(TROUBLE);
    assert_eq!(rt; hand.millis.get(), 2_000);
}

#[test]
fn a_listener_keeps_the_last_trouble(rt: HostRuntime) {
    let mut heard = Heard::default();
    let mut listener = Listener::new(&mut heard);
    assert_eq!(rt; listener.trouble(), None);
    listener.begin("stores", None);
    listener.advance(3);
    listener.end();
    listener.fail(TROUBLE);
    assert_eq!(rt; listener.trouble(), Some(TROUBLE));
    listener.hush();
    listener.begin("stores", None);
    listener.advance(4);
    listener.end();
    drop(listener);
    assert_eq!(rt; (heard.works, heard.done, heard.ends), (1, 3, 1));
    assert_eq!(rt; heard.troubles, 0);
}

#[test]
fn each_byte_of_a_stream_is_told_once(rt: HostRuntime) -> Result<(), Fail> {
    let mut heard = Heard::default();
    let mut room = [0u8; 4];
    let mut letters = b"sixteen letters.".as_slice();
    let mut input = CountedInput::new(&mut letters, &mut heard);
    assert_eq!(rt; input.read(&mut room)?, 4);
    assert_eq!(rt; room, *b"sixt");
    assert_eq!(rt; input.read(&mut room[..3])?, 3);
    drop(input);
    assert_eq!(rt; heard.done, 7);
    let mut output = WriteOutput::new(Vec::new(rt.alloc()));
    let mut counted = CountedOutput::new(&mut output, &mut heard);
    assert_eq!(rt; counted.write(b"letters"), Ok(7));
    drop(counted);
    assert_eq!(rt; heard.done, 14);
    assert_eq!(rt; output.into_inner().as_slice(), b"letters".as_slice());
    Ok(())
}

#[test]
fn each_byte_that_is_written_to_a_disk_is_told_once(rt: HostRuntime) -> Result<(), Fail> {
    let mut heard = Heard::default();
    let mut disk = CountedDisk::new(MemDisk::new(rt.alloc(), 100)?, &mut heard);
    assert_eq!(rt; disk.length(), 100);
    assert_eq!(rt; disk.write_at(10, b"abc"), Ok(()));
    assert_eq!(rt; disk.sync(), Ok(()));
    let mut room = [0u8; 5];
    assert_eq!(rt; disk.read_at(9, &mut room), Ok::<(), DiskFault>(()));
    assert_eq!(rt; room, *b"\0abc\0");
    let below = disk.into_disk();
    assert_eq!(rt; (heard.done, below.length()), (3, 100));
    Ok(())
}
