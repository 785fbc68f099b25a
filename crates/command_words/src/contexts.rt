// The meaning of a reason, by the work that was refused.
use crate::reasons::{Meaning, first_word, meaning_in, meaning_of};
use crate::watched::LastLine;
use crate::wrong_words::asked_case;

/// The work that was refused, if a reason means more then.
#[derive(Clone, Copy, PartialEq, Eq)]
pub enum Context {
    /// `salvage` looked for the cases of an archive.
    Salvaging,
    /// `store` named a case.
    Naming,
    /// `store` took an image.
    Storing,
    /// `handle` took a core.
    Handling,
    /// `list` picked cases.
    Listing,
    /// `groups` picked cores.
    Grouping,
    /// Another command only looked at an archive.
    Looking,
    /// `prune` picked cases.
    Pruning,
    /// `copy` or `resize` made a new archive.
    Copying,
    /// Anything else.
    Other,
}

// The reasons that mean more to `salvage`: nothing lets the archive open.
static SALVAGE_MEANINGS: [Meaning; 3] = [
    Meaning {
        reason: b"NotAnArchive",
        words: b"it is not a corekeep archive; if it was one, its superblock is damaged, and nothing else gives its shape: state it with --half N and --data N",
    },
    Meaning {
        reason: b"UnknownVersion",
        words: b"the archive is of a later version of the layout, or the version of a half is damaged and nothing gives the shape: state it with --half N and --data N",
    },
    Meaning {
        reason: b"Damaged",
        words: b"this byte is damaged, and neither half of the journal opens: take an older copy of the archive",
    },
];

// The meaning of the shape in the superblock.
const SHAPE: &[u8] =
    b"this byte of the superblock is damaged, or the file is not as long as its superblock says: corekeep salvage ARCHIVE NEW finds the shape; if it doesn't, state it with --half N and --data N";

// Those that mean more to `store`, when it names the case.
static NAME_MEANINGS: [Meaning; 2] = [
    Meaning {
        reason: b"TooLong",
        words: b"the name has over 128 bytes: take a shorter NAME of --exec, or a shorter --template; or the length that --length states is over the limit (--limit N, 1 GiB if it is left out): raise it, or keep the first bytes with --cut",
    },
    Meaning {
        reason: b"BadLine",
        words: b"a word is invalid: pairs go without --exec, --name without --exec, --build and --spool; a VALUE or a label with spaces needs --escape; a limit and --length are numbers, and --sha256 is 64 hexadecimal digits",
    },
];

// The same, when it takes the image.
static STORE_MEANINGS: [Meaning; 1] = [Meaning {
    reason: b"TooLong",
    words: b"the image is over the limit (--limit N, 1 GiB if it is left out): raise it, or keep the first bytes with --cut; or it has more bytes than --length states",
}];

// The meaning of a reason that more is known of if `store` has this option.
struct OptionMeaning {
    option: &'static str,
    meaning: Meaning,
}

const STORED_ALREADY: Meaning = Meaning {
    reason: b"NameTaken",
    words: b"a case of this path or build is stored already: to replace it, delete that case first (corekeep list ARCHIVE --kind exec shows it)",
};

static OPTION_MEANINGS: [OptionMeaning; 3] = [
    OptionMeaning {
        option: "--exec",
        meaning: STORED_ALREADY,
    },
    OptionMeaning {
        option: "--build",
        meaning: STORED_ALREADY,
    },
    OptionMeaning {
        option: "--fit",
        meaning: Meaning {
            reason: b"SpaceFull",
            words: b"FILE has no room even if every unpinned case goes: unpin or delete cases, keep its first bytes with --cut, or corekeep resize ARCHIVE --data N",
        },
    },
];

// The same of `handle`.
static HANDLER_MEANINGS: [Meaning; 3] = [
    Meaning {
        reason: b"TooLong",
        words: b"the core is over the limit of the configuration (limit, 1 GiB if it is left out): raise it, or keep the first bytes with cut; or it has more bytes than its stated length",
    },
    Meaning {
        reason: b"SpaceFull",
        words: b"the archive has too few free blocks: set fit = true in the configuration, delete or retire cases, or corekeep resize ARCHIVE --data N",
    },
    Meaning {
        reason: b"NameTaken",
        words: b"a case has this name: delete that case, or set a template in the configuration that tells cores apart, such as core.%e.%p.%t",
    },
];

// The same of `list`.
static LIST_MEANINGS: [Meaning; 2] = [
    Meaning {
        reason: b"BadLine",
        words: b"the value of a filter is invalid: --kind takes core or exec, --signal a number or a name such as SEGV, --since and --until 2h, 3d, today, yesterday, 2026-11-25, '2026-11-25 14:03', 2026-11-25T14:03:11Z or @SECONDS, --sort time, size or name; or search has no --text TEXT",
    },
    Meaning {
        reason: b"Disk",
        words: b"a read of the archive failed: the kernel's log (dmesg) may say why",
    },
];

// The same of `groups`.
static GROUPS_MEANINGS: [Meaning; 3] = [
    Meaning {
        reason: b"BadLine",
        words: b"the value of a filter is invalid: --signal takes a number or a name such as SEGV, --since and --until 2h, 3d, today, yesterday, 2026-11-25, '2026-11-25 14:03', 2026-11-25T14:03:11Z or @SECONDS",
    },
    Meaning {
        reason: b"NoCase",
        words: b"no case has this number or name, or the filters leave the case out, or it or an executable was deleted meanwhile: corekeep list ARCHIVE shows the cases",
    },
    Meaning {
        reason: b"Disk",
        words: b"a read of the archive failed: the kernel's log (dmesg) may say why",
    },
];

// The same of `prune`.
static PRUNE_MEANINGS: [Meaning; 1] = [Meaning {
    reason: b"BadLine",
    words: b"a limit is invalid: --cores, --bytes and --before each take a number, and --before the seconds since 1970",
}];

// The same for the other commands that only look.
static LOOK_MEANINGS: [Meaning; 1] = [Meaning {
    reason: b"Disk",
    words: b"a read of the archive failed: the kernel's log (dmesg) may say why",
}];

// The same of `copy` and `resize`.
static COPY_MEANINGS: [Meaning; 2] = [
    Meaning {
        reason: b"SpaceFull",
        words: b"the cases take more blocks than --data says: a larger one, or delete or retire cases before (corekeep info ARCHIVE shows how many blocks there are, and how many are free)",
    },
    Meaning {
        reason: b"JournalFull",
        words: b"the records of the cases have no room in a half by --half: leave --half out, which takes as many blocks as ARCHIVE has or one more, or take a larger one, or delete or retire cases before",
    },
];

/// The work of these words, after which this is the last line of the output. If `store` is refused a name, the output has no
/// other line.
pub fn context_of(words: &[String], line: &LastLine) -> Context {
    let Some(command) = words.first() else {
        return Context::Other;
    };
    match command.as_str() {
        "salvage" => Context::Salvaging,
        "handle" => Context::Handling,
        "store" if line.is_first() => Context::Naming,
        "store" => Context::Storing,
        "list" | "search" => Context::Listing,
        "groups" => Context::Grouping,
        "info" | "report" | "wants" | "look" | "extract" | "digest" | "unpack" | "check" =>
            Context::Looking,
        "prune" => Context::Pruning,
        "copy" | "resize" => Context::Copying,
        _ => Context::Other,
    }
}

/// The meaning of a reason after this work of these words. Empty if there is nothing to say.
pub fn meaning_of_words(context: Context, words: &[String], reason: &[u8]) -> &'static [u8] {
    if reason == b"NoCase".as_slice() && matches!(asked_case(words), Some("last" | "latest")) {
        return b"the archive has no core: corekeep list ARCHIVE shows its cases";
    }
    if context == Context::Naming || context == Context::Storing {
        for row in &OPTION_MEANINGS {
            if row.meaning.reason == reason
                && words.iter().any(|word| word.starts_with(row.option))
            {
                return row.meaning.words;
            }
        }
    }
    meaning_when(context, reason)
}

// The meaning of a reason after this work. Empty if there is nothing to say.
fn meaning_when(context: Context, reason: &[u8]) -> &'static [u8] {
    if reason.ends_with(b" shape") {
        return SHAPE;
    }
    let words = meaning_in(meanings_of(context), first_word(reason));
    if words.is_empty() {
        return meaning_of(reason);
    }
    words
}

// The meanings of reasons after this work, if they are more than elsewhere.
fn meanings_of(context: Context) -> &'static [Meaning] {
    match context {
        Context::Salvaging => &SALVAGE_MEANINGS,
        Context::Naming => &NAME_MEANINGS,
        Context::Storing => &STORE_MEANINGS,
        Context::Handling => &HANDLER_MEANINGS,
        Context::Listing => &LIST_MEANINGS,
        Context::Grouping => &GROUPS_MEANINGS,
        Context::Looking => &LOOK_MEANINGS,
        Context::Pruning => &PRUNE_MEANINGS,
        Context::Copying => &COPY_MEANINGS,
        Context::Other => &[],
    }
}
