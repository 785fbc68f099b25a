// Types of the auxiliary vector that a script prints as numbers.

// A type by its number, and its name in elf.h of the GNU C library without AT_.
struct AuxvName {
    number: &'static [u8],
    name: &'static str,
}

static NAMES: [AuxvName; 11] = [
    AuxvName {
        number: b"27",
        name: "RSEQ_FEATURE_SIZE",
    },
    AuxvName {
        number: b"28",
        name: "RSEQ_ALIGN",
    },
    AuxvName {
        number: b"40",
        name: "L1I_CACHESIZE",
    },
    AuxvName {
        number: b"41",
        name: "L1I_CACHEGEOMETRY",
    },
    AuxvName {
        number: b"42",
        name: "L1D_CACHESIZE",
    },
    AuxvName {
        number: b"43",
        name: "L1D_CACHEGEOMETRY",
    },
    AuxvName {
        number: b"44",
        name: "L2_CACHESIZE",
    },
    AuxvName {
        number: b"45",
        name: "L2_CACHEGEOMETRY",
    },
    AuxvName {
        number: b"46",
        name: "L3_CACHESIZE",
    },
    AuxvName {
        number: b"47",
        name: "L3_CACHEGEOMETRY",
    },
    AuxvName {
        number: b"51",
        name: "MINSIGSTKSZ",
    },
];

// The name of a type that a reply has as this word, if it is one of these.
pub(crate) fn auxv_name(word: &[u8]) -> Option<&'static str> {
    for entry in &NAMES {
        if entry.number == word {
            return Some(entry.name);
        }
    }
    None
}
