//! Signatures next to the walks that have them. The expected ones are of a reading of the definition in another language, which was
//! tried on real cores; but for the last one, whose function has the name of a mark.
use crash_signatures::{
    Core, FrameFacts, Group, HandledSignal, MappedFile, Signature, Words, grouped, signature_of,
    word_of,
};
use script_words::parse_number;
use std::process::Abort;
use std::test::Fail;

/// A walk and its signature: frames, frames that repeat, and frames behind them. A frame is a word: the name of its function, `@PATH:PLACE`
/// for a place in a file, or `!signal`, `!null`, `!vdso`, `!wild`, or `!unknown` if no file is known. Between words is a `|`.
struct Walk {
    head: &'static str,
    cycle: &'static str,
    times: usize,
    tail: &'static str,
    /// The signal that was handled; 0 if it is not known.
    handled: (u32, &'static [u8]),
    is_whole: bool,
    signature: &'static [u8],
}

static WALKS: [Walk; 30] = [
    // A write to a null pointer, with the whole stack
    Walk {
        head: "echo|delta|charlie|bravo|alpha|main|start_c|_start",
        cycle: "",
        times: 0,
        tail: "",
        handled: (0, b""),
        is_whole: true,
        signature: b"echo delta charlie bravo alpha",
    },
    // The same core, cut before its stack
    Walk {
        head: "echo",
        cycle: "",
        times: 0,
        tail: "",
        handled: (0, b""),
        is_whole: false,
        signature: b"echo ..",
    },
    // A thread
    Walk {
        head: "die|work1|thread_c|start_thread",
        cycle: "",
        times: 0,
        tail: "",
        handled: (0, b""),
        is_whole: true,
        signature: b"die work1 thread_c",
    },
    // A call through a null pointer
    Walk {
        head: "!null|calls_null|start_c|_start",
        cycle: "",
        times: 0,
        tail: "",
        handled: (0, b""),
        is_whole: true,
        signature: b"<null> calls_null start_c",
    },
    // A stack that ends in the middle
    Walk {
        head: "dies|overlast",
        cycle: "",
        times: 0,
        tail: "",
        handled: (0, b""),
        is_whole: false,
        signature: b"dies overlast ..",
    },
    // A signal's handler ran into the same fault, in a file without symbols
    Walk {
        head: "@/bin/small-pie:0x380|@/bin/small-pie:0x3f4|@/bin/small-pie:0x3d0|@/bin/small-pie:0x414|!signal|@/bin/small-pie:0x380|@/bin/small-pie:0x63c|@/bin/small-pie:0x728|@/bin/small-pie (deleted):0x36c",
        cycle: "",
        times: 0,
        tail: "",
        handled: (11, b"SIGSEGV"),
        is_whole: true,
        signature: b"<SIGSEGV> small-pie+0x380 small-pie+0x63c small-pie+0x728 small-pie+0x36c",
    },
    // A handler that only reported the fault by `abort`
    Walk {
        head: "raise|abort|report_crash|!signal|parse|load|main|__libc_start_main",
        cycle: "",
        times: 0,
        tail: "",
        handled: (11, b"SIGSEGV"),
        is_whole: true,
        signature: b"<SIGSEGV> parse load main",
    },
    // A handler of another signal fails itself
    Walk {
        head: "crash_here|on_alarm|!signal|compute|main",
        cycle: "",
        times: 0,
        tail: "",
        handled: (10, b"SIGUSR1"),
        is_whole: true,
        signature: b"crash_here on_alarm <SIGUSR1>",
    },
    // A signal that can't be read
    Walk {
        head: "tick|!signal|work|main",
        cycle: "",
        times: 0,
        tail: "",
        handled: (0, b""),
        is_whole: true,
        signature: b"tick <signal>",
    },
    // Only the first frame of a signal counts
    Walk {
        head: "a|!signal|b|!signal|c|main",
        cycle: "",
        times: 0,
        tail: "",
        handled: (7, b"SIGBUS"),
        is_whole: true,
        signature: b"<SIGBUS> b <signal> c main",
    },
    // Nothing is behind the signal's frame
    Walk {
        head: "handler|!signal",
        cycle: "",
        times: 0,
        tail: "",
        handled: (11, b"SIGSEGV"),
        is_whole: false,
        signature: b"handler <SIGSEGV>",
    },
    // The way to die, with a frame without a name in it
    Walk {
        head: "__pthread_kill_implementation|raise|!wild|abort|check_heap|insert|main",
        cycle: "",
        times: 0,
        tail: "",
        handled: (0, b""),
        is_whole: true,
        signature: b"check_heap insert main",
    },
    // Nothing is behind the way to die
    Walk {
        head: "raise|abort",
        cycle: "",
        times: 0,
        tail: "",
        handled: (0, b""),
        is_whole: false,
        signature: b"raise abort ..",
    },
    // An exception that nobody catches
    Walk {
        head: "__pthread_kill_implementation|raise|abort|_ZN9__gnu_cxx27__verbose_terminate_handlerEv|_ZN10__cxxabiv111__terminateEPFvvE|_ZSt9terminatev|__cxa_throw|_Z5parsePKc|_Z4loadv|main",
        cycle: "",
        times: 0,
        tail: "",
        handled: (0, b""),
        is_whole: true,
        signature: b"_Z5parsePKc _Z4loadv main",
    },
    // A way to die beyond the first 16 frames
    Walk {
        head: "f0|f1|f2|f3|f4|f5|f6|f7|f8|f9|f10|f11|f12|f13|f14|f15|abort|main",
        cycle: "",
        times: 0,
        tail: "",
        handled: (0, b""),
        is_whole: true,
        signature: b"f0 f1 f2 f3 f4",
    },
    // A deep recursion
    Walk {
        head: "leaf",
        cycle: "walk|visit|each",
        times: 31,
        tail: "",
        handled: (0, b""),
        is_whole: true,
        signature: b"<recursion> each walk visit",
    },
    // The same, hit at another function of the cycle
    Walk {
        head: "visit|each",
        cycle: "walk|visit|each",
        times: 30,
        tail: "",
        handled: (0, b""),
        is_whole: true,
        signature: b"<recursion> each walk visit",
    },
    // A deep recursion behind a signal's frame
    Walk {
        head: "on_fault|!signal",
        cycle: "odd|even",
        times: 45,
        tail: "",
        handled: (11, b"SIGSEGV"),
        is_whole: true,
        signature: b"<SIGSEGV> <recursion> even odd",
    },
    // Too few words for a deep recursion
    Walk {
        head: "",
        cycle: "odd|even",
        times: 31,
        tail: "main",
        handled: (0, b""),
        is_whole: true,
        signature: b"odd even main",
    },
    // Suffixes that compilers add
    Walk {
        head: "parse.isra.0|read.part.2.cold|load.lto_priv.1|.cold|scan.constprop.0.x|main",
        cycle: "",
        times: 0,
        tail: "",
        handled: (0, b""),
        is_whole: true,
        signature: b"parse read load .cold scan.constprop.0.x",
    },
    // The hash of a Rust name
    Walk {
        head: "_ZN4core6option13unwrap_failed17h0123456789abcdefE|_ZN3app3run17h0123456789abcdefg|main",
        cycle: "",
        times: 0,
        tail: "",
        handled: (0, b""),
        is_whole: true,
        signature: b"_ZN4core6option13unwrap_failedE _ZN3app3run17h0123456789abcdefg main",
    },
    // Repetitions of one, two and three words
    Walk {
        head: "a|a|b|c|b|c|d|e|f|d|e|f|g|main",
        cycle: "",
        times: 0,
        tail: "",
        handled: (0, b""),
        is_whole: true,
        signature: b"a b c d e",
    },
    // A repetition of four words stays
    Walk {
        head: "a|b|c|d|a|b|c|d|main",
        cycle: "",
        times: 0,
        tail: "",
        handled: (0, b""),
        is_whole: true,
        signature: b"a b c d a",
    },
    // Five words of a stack that ends in the middle
    Walk {
        head: "a|b|c|d|e",
        cycle: "",
        times: 0,
        tail: "",
        handled: (0, b""),
        is_whole: false,
        signature: b"a b c d e ..",
    },
    // Six
    Walk {
        head: "a|b|c|d|e|f",
        cycle: "",
        times: 0,
        tail: "",
        handled: (0, b""),
        is_whole: false,
        signature: b"a b c d e",
    },
    // Only `main`
    Walk {
        head: "main|__libc_start_call_main",
        cycle: "",
        times: 0,
        tail: "",
        handled: (0, b""),
        is_whole: false,
        signature: b"main",
    },
    // Only the functions that call `main`
    Walk {
        head: "_start|__libc_start_main",
        cycle: "",
        times: 0,
        tail: "",
        handled: (0, b""),
        is_whole: true,
        signature: b"_start",
    },
    // The vdso, and places without a file
    Walk {
        head: "!vdso|!wild|main",
        cycle: "",
        times: 0,
        tail: "",
        handled: (0, b""),
        is_whole: true,
        signature: b"<vdso> <wild> main",
    },
    // A core that doesn't say which files are mapped
    Walk {
        head: "!unknown|!unknown|!null",
        cycle: "",
        times: 0,
        tail: "",
        handled: (0, b""),
        is_whole: false,
        signature: b"? <null> ..",
    },
    // A function that is called as a mark is
    Walk {
        head: "<signal>|work|main",
        cycle: "",
        times: 0,
        tail: "",
        handled: (11, b"SIGSEGV"),
        is_whole: true,
        signature: b"<signal> work main",
    },
];

// The places at which files are mapped, one in every other frame higher.
const LOW: u64 = 0x10000;

const HIGH: u64 = 0x7f00_0000_0000;

// The facts that are known of a frame.
fn facts(word: &'static str, start: u64) -> FrameFacts<'static> {
    let mut facts = FrameFacts {
        pc: 0x9000_0000,
        is_signal: false,
        function: None,
        file: None,
        is_vdso: false,
        has_files: true,
    };
    match word {
        "!signal" => facts.is_signal = true,
        "!null" => facts.pc = 0xfff,
        "!vdso" => facts.is_vdso = true,
        "!wild" => facts.pc = 0x1000,
        "!unknown" => facts.has_files = false,
        _ => put_place(&mut facts, word, start),
    }
    facts
}

fn put_place(facts: &mut FrameFacts<'static>, word: &'static str, start: u64) {
    let Some((path, place)) = place_in(word) else {
        facts.function = Some(word.as_bytes());
        return;
    };
    facts.pc = start.saturating_add(place);
    facts.file = Some(MappedFile {
        path,
        start,
        offset: 0,
    });
}

fn place_in(word: &'static str) -> Option<(&'static [u8], u64)> {
    let (path, place) = word.strip_prefix('@')?.split_once(':')?;
    Some((path.as_bytes(), parse_number(place.as_bytes())?))
}

fn add_frames(words: &mut Words, frames: &'static str) {
    for word in frames.split('|') {
        if !word.is_empty() {
            let start = if words.len() % 2 == 0 { LOW } else { HIGH };
            let _ = words.try_push(word_of(&facts(word, start)));
        }
    }
}

fn words_of(walk: &Walk) -> Words {
    let mut words = Words::new();
    add_frames(&mut words, walk.head);
    for _ in 0..walk.times {
        add_frames(&mut words, walk.cycle);
    }
    add_frames(&mut words, walk.tail);
    words
}

// Whether a text begins with this word, and the text after it and the space.
fn behind<'a>(text: &'a [u8], word: &[u8]) -> Option<&'a [u8]> {
    let rest = text.strip_prefix(word)?;
    match rest {
        [] => Some(rest),
        [b' ', rest @ ..] => Some(rest),
        _ => None,
    }
}

fn is_told(signature: &Signature, text: &[u8]) -> bool {
    let mut rest = text;
    for word in signature.words.as_slice() {
        match behind(rest, word.text.as_slice()) {
            Some(others) => rest = others,
            None => return false,
        }
    }
    if signature.is_missing {
        rest == b"..".as_slice()
    } else {
        rest.is_empty()
    }
}

fn has_signature(walk: &Walk) -> bool {
    let (number, name) = walk.handled;
    let handled = if number == 0 {
        None
    } else {
        Some(HandledSignal { number, name })
    };
    is_told(
        &signature_of(&words_of(walk), handled, walk.is_whole),
        walk.signature,
    )
}

#[test]
fn each_walk_has_its_signature(rt: HostRuntime) {
    for walk in &WALKS {
        assert!(&rt; has_signature(walk));
    }
}

fn core(number: u64, signature: usize, is_missing: bool, place: Option<usize>) -> Core {
    Core {
        number,
        signature,
        is_missing,
        place,
    }
}

// A group as it should be: its signature, its cases, and those that are perhaps of it.
type Wanted = (usize, &'static [u64], &'static [u64]);

static GROUPS: [Wanted; 5] = [
    (0, &[1, 2], &[3]),
    (4, &[6, 7], &[]),
    (5, &[8], &[]),
    (3, &[5], &[]),
    (2, &[4], &[]),
];

fn is_wanted(group: &Group, wanted: &Wanted) -> bool {
    let (signature, cases, perhaps) = *wanted;
    group.signature == signature
        && group.cases.as_slice() == cases
        && group.perhaps.as_slice() == perhaps
}

#[test]
fn cores_are_grouped(rt: HostRuntime) -> Result<(), Fail> {
    let cores = [
        core(1, 0, false, Some(0)),
        core(2, 0, false, Some(0)),
        // Its one home is the group of the cores before it
        core(3, 1, true, Some(0)),
        core(4, 2, false, Some(1)),
        core(5, 3, false, Some(1)),
        // It would have two homes
        core(6, 4, true, Some(1)),
        core(7, 4, true, None),
        // It has no home
        core(8, 5, true, Some(2)),
    ];
    let groups = grouped(rt.alloc(), &cores)?;
    assert_eq!(rt; groups.len(), GROUPS.len());
    for (group, wanted) in groups.as_slice().iter().zip(&GROUPS) {
        assert!(rt; is_wanted(group, wanted));
    }
    Ok(())
}
