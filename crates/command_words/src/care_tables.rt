// The commands that care for an archive.
use crate::tables::{ARCHIVE, CommandWords, NEW_BLOCKS, NO_WAIT, Takes, Word};

pub(crate) static CHECK: CommandWords = CommandWords {
    name: "check",
    about: "Print what an archive holds, and that it is sound or where it is damaged",
    after_help: None,
    words: &[ARCHIVE, IMAGES, NO_WAIT],
};

pub(crate) static COPY: CommandWords = CommandWords {
    name: "copy",
    about: "Copy an archive into a new file, each case under its number; the new archive may have another size",
    after_help: None,
    words: &[
        ARCHIVE, NEW, NEW_HALF, NEW_DATA, NEW_LAYOUT, NEW_SPARSE, NO_WAIT, QUIET,
    ],
};

pub(crate) static RESIZE: CommandWords = CommandWords {
    name: "resize",
    about: "Make an archive larger or smaller: copy it into a file in the same directory, which then replaces it",
    after_help: None,
    words: &[
        ARCHIVE,
        NEW_HALF,
        NEW_DATA,
        NEW_SPARSE,
        DROP_RIGHTS,
        NO_WAIT,
        QUIET,
    ],
};

pub(crate) static SALVAGE: CommandWords = CommandWords {
    name: "salvage",
    about: "Copy the cases of a damaged archive into a new file, and print for each whether it is whole",
    after_help: None,
    words: &[ARCHIVE, NEW, SHAPE_HALF, SHAPE_DATA, NO_WAIT, QUIET],
};

// Whether no progress is shown.
pub(crate) const QUIET: Word = Word {
    id: "quiet",
    shown: "",
    takes: Takes::Flag,
    default: None,
    help: "Show no progress on a terminal",
};

// Whether images are read.
const IMAGES: Word = Word {
    id: "images",
    shown: "",
    takes: Takes::Flag,
    default: None,
    help: "Read each image too, and print whether its headers and notes are sound, or their first invalid field; an image of another machine has one too, and is kept whole anyway",
};

// The file of a copy.
const NEW: Word = Word {
    id: "new",
    shown: "NEW",
    takes: Takes::Place,
    default: None,
    help: "The file to make, which only its owner may read and write; a file that exists is refused",
};

// The blocks in each half of a copy's journal.
const NEW_HALF: Word = Word {
    id: "half",
    shown: "N",
    takes: NEW_BLOCKS,
    default: None,
    help: "Blocks of 4096 bytes in each half of the new journal [default: as many as there are]",
};

// The data blocks of a copy.
const NEW_DATA: Word = Word {
    id: "data",
    shown: "N",
    takes: NEW_BLOCKS,
    default: None,
    help: "Data blocks of 4096 bytes of the new archive [default: as many as there are]",
};

// The blocks in each half of the journal of an archive whose superblock is damaged.
const SHAPE_HALF: Word = Word {
    id: "half",
    shown: "N",
    takes: NEW_BLOCKS,
    default: None,
    help: "Blocks of 4096 bytes in each half of the journal, if the archive's superblock or its length gives another number; NEW has as many",
};

// Its data blocks.
const SHAPE_DATA: Word = Word {
    id: "data",
    shown: "N",
    takes: NEW_BLOCKS,
    default: None,
    help: "Data blocks of 4096 bytes, if the archive's superblock or its length gives another number; NEW has as many",
};

// The version of a copy's layout.
const NEW_LAYOUT: Word = Word {
    id: "layout",
    shown: "VERSION",
    takes: Takes::Within(2, 2),
    default: None,
    help: "2: the copy keeps labels, whatever the archive's version is",
};

// Whether a copy's zeros are left out.
const NEW_SPARSE: Word = Word {
    id: "sparse",
    shown: "",
    takes: Takes::Flag,
    default: None,
    help: "Do not write the new file's zeros: quick, but the file system may be full when a core arrives",
};

// Whether rights on an archive go that can't be copied.
const DROP_RIGHTS: Word = Word {
    id: "drop-rights",
    shown: "",
    takes: Takes::Flag,
    default: None,
    help: "Give up rights of the group and of others, access control lists, extended attributes and labels that can't be copied: the new file has its owner's rights alone",
};
