// Common Information Entries.
ghost use Rattle.std.specs.Prelude.{◌≡◌};
ghost use Rattle.std.specs.Option.{option_map};
ghost use Rattle.call_frames.specs.Chain.{viewed};
ghost use Rattle.call_frames.specs.Augmentation as augmentations;
ghost use Rattle.call_frames.specs.CommonEntry as spec;

use crate::augmentation::{augmentation, encoding_among};
use crate::faults::CfiField;
use crate::leb::{sized, sleb, uleb};

/// Which of the two formats the entries of a section have.
#[derive(Clone, Copy, PartialEq, Eq)]
pub(crate) enum Format {
    /// That of `.eh_frame` (LSB Core, "Exception Frames").
    EhFrame,
    /// That of `.debug_frame` (DWARF 5, 6.4.1).
    DebugFrame,
}

/// The fields of a CIE for the FDEs that belong to it.
#[derive(Clone, Copy)]
pub struct Cie<'a> {
    /// code_alignment_factor: advances of the location are multiples of it.
    pub code_align: u64,
    /// data_alignment_factor: offsets are multiples of it. It is signed, and is given modulo 2^64.
    pub data_align: u64,
    /// return_address_register: the column of the return address, 1 to 31 for x1 to x31.
    pub column: u8,
    /// The augmentation has S: the code is that to which a signal handler returns.
    pub signal: bool,
    /// How the pointers of the FDEs are encoded.
    pub(crate) encoding: u8,
    /// The FDEs have augmentation data.
    pub(crate) augmented: bool,
    /// The initial instructions.
    pub program: &'a [u8],
}

/// The fields up to the alignment factors.
#[derive(Clone, Copy)]
struct Head<'a> {
    version: u8,
    letters: &'a [u8],
    rest: &'a [u8],
}

/// The alignment factors and the return address register.
#[derive(Clone, Copy)]
struct Factors<'a> {
    code_align: u64,
    data_align: u64,
    column: u8,
    rest: &'a [u8],
}

/// The augmentation data.
#[derive(Clone, Copy)]
struct Data<'a> {
    encoding: u8,
    rest: &'a [u8],
}

/// Whether a version is one that is read.
fn is_version(format: Format, version: u8) -> bool
    ensures { result ≡ spec.is_version format version }
{
    match format {
        Format::EhFrame => matches!(version, 1 | 3),
        Format::DebugFrame => matches!(version, 1 | 3 | 4),
    }
}

/// The bytes after the address_size and the segment_selector_size, which version 4 has.
fn behind_sizes(version: u8, bytes: &[u8]) -> Option<&[u8]>
    ensures { option_map (λ rest. rest.now) result ≡ spec.behind_sizes version bytes.now }
{
    if version != 4 {
        return Some(bytes);
    }
    if !bytes.starts_with(&[8, 0]) {
        return None;
    }
    Some(&bytes[2..])
}

impl<'a> Head<'a> {
    ghost use Rattle.call_frames.specs.CommonWords.{head_view};

    /// The fields at the front.
    #[tactic(auto, unfolding(crate::specs::CommonEntry::head_in))]
    fn read(format: Format, bytes: &'a [u8]) -> Result<Head<'a>, CfiField>
        ensures { viewed head_view result ≡ spec.head_in format bytes.now }
    {
        let Some((version, rest)) = bytes.split_first() else {
            return Err(CfiField::Version);
        };
        let version = *version;
        if !is_version(format, version) {
            return Err(CfiField::Version);
        }
        let Some((letters, rest)) = augmentation(rest) else {
            return Err(CfiField::Augmentation);
        };
        let Some(rest) = behind_sizes(version, rest) else {
            return Err(CfiField::AddressSize);
        };
        Ok(Head {
            version,
            letters,
            rest,
        })
    }
}

/// The return address register at the front, and the bytes after it.
#[tactic(auto, unfolding(crate::specs::CommonEntry::column_in))]
fn column(version: u8, bytes: &[u8]) -> Option<(u8, &[u8])>
    ensures { option_map (λ r. (r.0, r.1.now)) result ≡ spec.column_in version bytes.now }
{
    let (column, rest) = number(version, bytes)?;
    if column < 1 || column > 31 {
        return None;
    }
    Some((column as u8, rest))
}

/// A byte in version 1, else a ULEB128, and the bytes after it.
fn number(version: u8, bytes: &[u8]) -> Option<(u64, &[u8])>
    ensures { option_map (λ r. (r.0, r.1.now)) result ≡ spec.number_in version bytes.now }
{
    if version != 1 {
        return uleb(bytes);
    }
    let (first, rest) = bytes.split_first()?;
    Some((u64::from(*first), rest))
}

impl<'a> Factors<'a> {
    ghost use Rattle.call_frames.specs.CommonWords.{factors_view};

    /// The fields at the front.
    #[tactic(auto, unfolding(crate::specs::CommonEntry::factors_in))]
    fn read(version: u8, bytes: &'a [u8]) -> Result<Factors<'a>, CfiField>
        ensures { viewed factors_view result ≡ spec.factors_in version bytes.now }
    {
        let Some((code_align, rest)) = uleb(bytes) else {
            return Err(CfiField::CodeAlign);
        };
        let Some((data_align, rest)) = sleb(rest) else {
            return Err(CfiField::DataAlign);
        };
        let Some((column, rest)) = column(version, rest) else {
            return Err(CfiField::ReturnColumn);
        };
        Ok(Factors {
            code_align,
            data_align,
            column,
            rest,
        })
    }
}

impl<'a> Data<'a> {
    ghost use Rattle.call_frames.specs.CommonWords.{data_view};

    /// The augmentation data at the front, if an augmentation string says that there are some.
    #[tactic(auto, unfolding(crate::specs::CommonEntry::data_in))]
    fn read(text: &[u8], bytes: &'a [u8]) -> Result<Data<'a>, CfiField>
        ensures { viewed data_view result ≡ spec.data_in text.now bytes.now }
    {
        let Some((_, letters)) = text.split_first() else {
            return Ok(Data {
                encoding: 0,
                rest: bytes,
            });
        };
        let Some((data, rest)) = sized(bytes) else {
            return Err(CfiField::AugmentationLength);
        };
        let Some(encoding) = encoding_among(letters, data) else {
            return Err(CfiField::Encoding);
        };
        Ok(Data { encoding, rest })
    }
}

/// Whether an augmentation string has S.
fn is_signal(text: &[u8]) -> bool
    ensures { result ≡ augmentations.is_signal text.now }
{
    text.contains(&b'S')
}

impl<'a> Cie<'a> {
    ghost use Rattle.call_frames.specs.CommonWords.{cie_view};

    /// Reads a CIE from after its CIE_id on.
    #[tactic(auto, unfolding(crate::specs::CommonEntry::cie_in))]
    pub(crate) fn read(format: Format, bytes: &'a [u8]) -> Result<Cie<'a>, CfiField>
        ensures { viewed cie_view result ≡ spec.cie_in format bytes.now }
    {
        let head = Head::read(format, bytes)?;
        let factors = Factors::read(head.version, head.rest)?;
        let data = Data::read(head.letters, factors.rest)?;
        Ok(Cie {
            code_align: factors.code_align,
            data_align: factors.data_align,
            column: factors.column,
            signal: is_signal(head.letters),
            encoding: data.encoding,
            augmented: !head.letters.is_empty(),
            program: data.rest,
        })
    }
}
