// The mappings of a core's process, and the target of an address.
use crate::texts::base_of;
use address_space::Mapping;
use core_notes::CoreNotes;
use image_replies::CoreImage;
use memory_replies::space_with;
use std::alloc::{AllocError, Global};
use thread_regs::{Reg, threads};

// AT_SYSINFO_EHDR of getauxval(3): where the kernel's own code is mapped.
const AT_SYSINFO_EHDR: u64 = 33;

// PF_X of elf(5).
const EXECUTABLE: u32 = 1;

// PF_W.
const WRITABLE: u32 = 2;

// The use of a mapping.
#[derive(Clone, Copy, PartialEq, Eq)]
pub(crate) enum Use {
    Stack,
    Code,
    Data,
    ReadOnly,
}

// The memory of a process, as far as a page shows it.
#[derive(Drop)]
pub(crate) struct Memory<'a> {
    // The mappings, by their addresses.
    pub(crate) mappings: Vec<Mapping<'a>>,
    // The pc and the stack pointer of the thread that dumped.
    pub(crate) pc: Option<u64>,
    pub(crate) sp: Option<u64>,
    // The address of the fault that ended the process.
    pub(crate) fault: Option<u64>,
    // Where the kernel's own code is mapped.
    vdso: Option<u64>,
}

// The memory of a core's process.
pub(crate) fn memory_of<'a>(alloc: Global, core: &CoreImage<'a>) -> Result<Memory<'a>, AllocError> {
    let notes = core.notes();
    let thread = threads(notes).next();
    Ok(Memory {
        mappings: mappings_of(alloc, core)?,
        pc: thread.map(|thread| thread.register(Reg::of_word(0))),
        sp: thread.map(|thread| thread.register(Reg::of_word(2))),
        fault: notes.siginfo().and_then(|met| met.si_addr()),
        vdso: vdso_of(notes),
    })
}

fn mappings_of<'a>(alloc: Global, core: &CoreImage<'a>) -> Result<Vec<Mapping<'a>>, AllocError> {
    let space = space_with(alloc, core, &[])?;
    let mut mappings = Vec::new(alloc);
    for mapping in space.mappings() {
        if mapping.memsz > 0 {
            mappings.push(mapping)?;
        }
    }
    mappings.sort_unstable_by_key(|mapping| mapping.start);
    Ok(mappings)
}

fn vdso_of(notes: &CoreNotes<'_>) -> Option<u64> {
    let pair = notes
        .auxv()?
        .pairs()
        .find(|pair| pair.kind == AT_SYSINFO_EHDR)?;
    Some(pair.value)
}

// Whether a mapping has an address.
pub(crate) fn has(mapping: &Mapping<'_>, address: u64) -> bool {
    mapping.start <= address && address - mapping.start < mapping.memsz
}

fn has_some(mapping: &Mapping<'_>, address: Option<u64>) -> bool {
    match address {
        Some(address) => has(mapping, address),
        None => false,
    }
}

impl<'a> Memory<'a> {
    // The first mapping that has an address.
    pub(crate) fn at(&self, address: u64) -> Option<&Mapping<'a>> {
        self.mappings.iter().find(|mapping| has(mapping, address))
    }

    // The use of a mapping: the stack is the mapping that has the stack pointer.
    pub(crate) fn use_of(&self, mapping: &Mapping<'_>) -> Use {
        if has_some(mapping, self.sp) {
            Use::Stack
        } else if mapping.flags & EXECUTABLE > 0 {
            Use::Code
        } else if mapping.flags & WRITABLE > 0 {
            Use::Data
        } else {
            Use::ReadOnly
        }
    }

    // The name of a mapping: its file, or else its use.
    pub(crate) fn name_of(&self, mapping: &Mapping<'a>) -> &'a [u8] {
        match (mapping.spot, self.use_of(mapping)) {
            (Some(spot), _) => base_of(spot.name),
            (None, Use::Stack) => b"stack",
            (None, _) if Some(mapping.start) == self.vdso => b"vdso",
            (None, _) => b"anonymous",
        }
    }
}
