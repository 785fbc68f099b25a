// The meaning of a reason, in words for people.

// A reason, and its meaning.
pub(crate) struct Meaning {
    pub(crate) reason: &'static [u8],
    pub(crate) words: &'static [u8],
}

// The reasons for which something is refused. Other reasons are fields of an image.
static MEANINGS: [Meaning; 49] = [
    Meaning {
        reason: b"SpaceFull",
        words: b"the archive has too few free blocks: delete or retire cases, store with --fit (handle: fit = true in its configuration), or corekeep resize ARCHIVE --data N",
    },
    Meaning {
        reason: b"JournalFull",
        words: b"the journal is full of live cases: delete or retire some, or corekeep resize ARCHIVE --half N",
    },
    Meaning {
        reason: b"NumbersSpent",
        words: b"all numbers of cases are given: make a new archive",
    },
    Meaning {
        reason: b"NameTaken",
        words: b"a case has this name: delete that case, or give --name, or another pid= (time= is in a name only by a --template with %t)",
    },
    Meaning {
        reason: b"Burst",
        words: b"too many cores of this program were stored shortly before (burst)",
    },
    Meaning {
        reason: b"Limit",
        words: b"its process allows a core less than 4,096 bytes (ulimit -c), and obey-limit is set",
    },
    Meaning {
        reason: b"TooLong",
        words: b"the image is over the limit: raise the limit, or keep the first bytes with --cut; or it has more bytes than its stated length; or its name has over 128 bytes: take a shorter one",
    },
    Meaning {
        reason: b"Short",
        words: b"the image ended before its stated length: it was cut on its way, and nothing is stored; send it again",
    },
    Meaning {
        reason: b"Differs",
        words: b"the image has another SHA-256 than is stated: its bytes were changed on their way, and nothing is stored; send it again",
    },
    Meaning {
        reason: b"NulByte",
        words: b"the name has a NUL",
    },
    Meaning {
        reason: b"Empty",
        words: b"the name is empty",
    },
    Meaning {
        reason: b"File",
        words: b"a file could not be opened or read",
    },
    Meaning {
        reason: b"Disk",
        words: b"a read, a write or a sync of the archive failed",
    },
    Meaning {
        reason: b"Stopped",
        words: b"a read, a write or a sync of the archive failed before",
    },
    Meaning {
        reason: b"OutOfMemory",
        words: b"there is no memory",
    },
    Meaning {
        reason: b"Busy",
        words: b"another process is using the archive",
    },
    Meaning {
        reason: b"NotAnArchive",
        words: b"it is not a corekeep archive; if it was one, its superblock is damaged: corekeep salvage ARCHIVE NEW",
    },
    Meaning {
        reason: b"NoBuildId",
        words: b"FILE has no build ID that gives a name (one of 2 to 55 bytes): link it with --build-id, or store it with --exec PATH",
    },
    Meaning {
        reason: b"OtherBuild",
        words: b"FILE is of another build than --id says",
    },
    Meaning {
        reason: b"BadLine",
        words: b"the words are invalid",
    },
    Meaning {
        reason: b"LineTooLong",
        words: b"the words have over 1,024 bytes",
    },
    Meaning {
        reason: b"Damaged",
        words: b"the archive is damaged: this byte is in its first invalid field; corekeep salvage ARCHIVE NEW copies what can be read",
    },
    Meaning {
        reason: b"UnknownVersion",
        words: b"the archive is of a later version of the layout, or this byte is damaged: then corekeep salvage ARCHIVE NEW copies what can be read",
    },
    Meaning {
        reason: b"OldVersion",
        words: b"the archive is of version 1 of the layout, which keeps no labels: corekeep ask ARCHIVE upgrade brings it to version 2",
    },
    Meaning {
        reason: b"NoCase",
        words: b"the archive has no case of this number or whole name: corekeep list ARCHIVE shows them",
    },
    Meaning {
        reason: b"Pinned",
        words: b"the case is pinned: corekeep ask ARCHIVE unpin CASE first",
    },
    Meaning {
        reason: b"NotCore",
        words: b"the case is an executable, and this line needs a core",
    },
    Meaning {
        reason: b"NotExec",
        words: b"the case is a core, and this line needs an executable",
    },
    Meaning {
        reason: b"NoThread",
        words: b"the core has no thread of this number: T is the first word of a line of threads N, from 0 on, and not the TID; if threads N lists none, notes N may: notes of type 0x1 are read only if they are named CORE, and not LINUX",
    },
    Meaning {
        reason: b"NoFrame",
        words: b"the thread has no frame of this number: unwind N T lists them",
    },
    Meaning {
        reason: b"NoSymbol",
        words: b"no function of the executable has this address, or it has no symbol table",
    },
    Meaning {
        reason: b"NoLine",
        words: b"no line table of the executable or its debug file has this address: build with -g, and store the debug file with --build",
    },
    Meaning {
        reason: b"Compressed",
        words: b"the line tables are compressed by another method than zlib, such as zstd, or damaged: objcopy --decompress-debug-sections FILE NEW makes a file to store instead (delete the case of FILE first), and fails if FILE is damaged",
    },
    Meaning {
        reason: b"Missing",
        words: b"the core lacks the note that this line shows: NT_FILE for files, builds, used and wants, NT_PRPSINFO for process, NT_SIGINFO for signal, NT_AUXV for auxv",
    },
    Meaning {
        reason: b"Range",
        words: b"the range goes past the end of the address space, or is over 65,536 bytes",
    },
    Meaning {
        reason: b"Unmapped",
        words: b"no range of the core's memory has this address: maps N lists them",
    },
    Meaning {
        reason: b"Truncated",
        words: b"the input ended before all bytes of the part",
    },
    Meaning {
        reason: b"BadShape",
        words: b"a half of the journal takes 1 to 4,096 blocks, and the data 1 to 16,777,216",
    },
    Meaning {
        reason: b"Pipe",
        words: b"the template would hand cores to a program",
    },
    Meaning {
        reason: b"TemplateTooLong",
        words: b"the template has over 127 bytes",
    },
    Meaning {
        reason: b"Magic",
        words: b"the file does not begin with the four bytes of an ELF file",
    },
    Meaning {
        reason: b"Length",
        words: b"the file is too short for the headers of an ELF file: it is no ELF file, or it was cut",
    },
    Meaning {
        reason: b"p_offset",
        words: b"a segment begins past the end of the file: the file was cut, or is damaged",
    },
    Meaning {
        reason: b"e_machine",
        words: b"the file is not of RISC-V: corekeep answers questions about RISC-V 64",
    },
    Meaning {
        reason: b"n_namesz",
        words: b"a note's name does not fit: the core is damaged or cut, or its notes are padded to 8 bytes (PT_NOTE has p_align 8), and only those padded to 4 are read",
    },
    Meaning {
        reason: b"n_descsz",
        words: b"a note's descriptor does not fit: the core is damaged or cut, or its notes are padded to 8 bytes (PT_NOTE has p_align 8), and only those padded to 4 are read",
    },
    Meaning {
        reason: b"EI_CLASS",
        words: b"the file is not of a 64-bit machine: corekeep answers questions about RISC-V 64",
    },
    Meaning {
        reason: b"EI_DATA",
        words: b"the file is not little-endian: corekeep answers questions about RISC-V 64",
    },
    Meaning {
        reason: b"e_type",
        words: b"the file is no core, or no executable",
    },
];

/// The meaning of a reason. It may have words after it. Empty if there is nothing to say.
pub(crate) fn meaning_of(reason: &[u8]) -> &'static [u8] {
    meaning_in(&MEANINGS, first_word(reason))
}

// A reason without the words after it.
pub(crate) fn first_word(reason: &[u8]) -> &[u8] {
    match reason.iter().position(|byte| *byte == b' ') {
        Some(end) => &reason[..end],
        None => reason,
    }
}

// The words of a reason in a table; empty if it has none there.
pub(crate) fn meaning_in(meanings: &[Meaning], reason: &[u8]) -> &'static [u8] {
    for meaning in meanings {
        if meaning.reason == reason {
            return meaning.words;
        }
    }
    b""
}
