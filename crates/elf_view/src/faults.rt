// The kind that an image is read as, and why it is refused.
ghost use Rattle.std.specs.Prelude.{◌≡◌};
ghost use Rattle.elf_view.specs.FieldNames as names;

use thiserror::Error;

/// The kind that an image is read as.
#[derive(Clone, Copy, Debug, PartialEq, Eq)]
pub enum Want {
    /// A core file, ET_CORE.
    Core,
    /// An executable, ET_EXEC or ET_DYN.
    Exec,
}

/// The field, by its name in the System V gABI, at which an image is refused.
#[derive(Clone, Copy, Debug, PartialEq, Eq)]
pub enum ElfField {
    /// The image has fewer than 64 bytes.
    Length,
    /// Its first four bytes are not 0x7f, E, L, F.
    Magic,
    /// EI_CLASS is not ELFCLASS64.
    EiClass,
    /// EI_DATA is not ELFDATA2LSB.
    EiData,
    /// EI_VERSION is not EV_CURRENT.
    EiVersion,
    /// e_type is not that of the wanted kind of file.
    EType,
    /// e_machine is not EM_RISCV.
    EMachine,
    /// e_version is not EV_CURRENT.
    EVersion,
    /// There are program headers, and e_phentsize is not 56.
    EPhentsize,
    /// The number of program headers is PN_XNUM, and section header 0 is not there.
    EShoff,
    /// The table of program headers is not all in the image.
    EPhoff,
    /// A PT_LOAD has a p_filesz greater than its p_memsz.
    PFilesz,
    /// A PT_LOAD ends past the address space: p_vaddr + p_memsz is over 2^64.
    PMemsz,
    /// A PT_NOTE of a core is not all in the image.
    POffset,
    /// A note's 12 bytes, or its name with the padding, do not fit in its segment.
    NNamesz,
    /// A note's descriptor does not fit in its segment.
    NDescsz,
}

impl ElfField {
    /// Its name in the System V gABI; `Length` and `Magic` have none there.
    pub fn name(self) -> &'static str
        ensures { result.now ≡ names.elf_field_name self }
    {
        match self {
            ElfField::Length => "Length",
            ElfField::Magic => "Magic",
            ElfField::EiClass => "EI_CLASS",
            ElfField::EiData => "EI_DATA",
            ElfField::EiVersion => "EI_VERSION",
            ElfField::EType => "e_type",
            ElfField::EMachine => "e_machine",
            ElfField::EVersion => "e_version",
            ElfField::EPhentsize => "e_phentsize",
            ElfField::EShoff => "e_shoff",
            ElfField::EPhoff => "e_phoff",
            ElfField::PFilesz => "p_filesz",
            ElfField::PMemsz => "p_memsz",
            ElfField::POffset => "p_offset",
            ElfField::NNamesz => "n_namesz",
            ElfField::NDescsz => "n_descsz",
        }
    }

    /// Whether it is a field of a program header or of a note, of which there may be many.
    pub fn has_index(self) -> bool
        ensures { result ≡ names.has_index self }
    {
        matches!(
            self,
            ElfField::PFilesz
                | ElfField::PMemsz
                | ElfField::POffset
                | ElfField::NNamesz
                | ElfField::NDescsz
        )
    }
}

/// Why an image is refused: the first of its checks that fails.
#[derive(Clone, Copy, Debug, PartialEq, Eq, Error)]
#[error("{field:?} {index}")]
pub struct ElfFault {
    /// The bad field.
    pub field: ElfField,
    /// The number of the program header or of the note (counted over all PT_NOTE segments), else 0. It stays at the
    /// highest u64 if there are more.
    pub index: u64,
}

/// Why a section cannot be given.
#[derive(Clone, Copy, Debug, PartialEq, Eq, Error)]
pub enum SectionFault {
    /// There are sections, and e_shentsize is not 64.
    #[error("e_shentsize")]
    EShentsize,
    /// Section header 0, or the table of section headers, is not all in the image.
    #[error("e_shoff")]
    EShoff,
    /// There are fewer sections.
    #[error("NoSection")]
    NoSection,
}
