// The entries of a table, one by one.
ghost use Rattle.std.specs.Prelude.{◌≡◌, ◌≤◌, ◌+◌, length, drop, IfOk, OnOk};
ghost use Rattle.std.specs.Option.{option_map};
ghost use Rattle.call_frames.specs.Chain.{viewed};
ghost use Rattle.call_frames.specs.CommonWords.{cie_view};
ghost use Rattle.call_frames.specs.Entry as spec;
ghost use Rattle.call_frames.specs.EntryWords.{table_view};

use crate::common::{Cie, Format};
use crate::faults::CfiField;
use crate::leb::sized;
use crate::pointers::{extent, pointer};
use crate::spots::Spot;
use elf_view::{part, u32_at};

/// A section of call frame information.
#[derive(Clone, Copy)]
pub(crate) struct Table<'a> {
    /// How its entries are written.
    pub(crate) format: Format,
    /// The address of its first byte.
    pub(crate) address: u64,
    /// Its bytes.
    pub(crate) bytes: &'a [u8],
}

/// A Frame Description Entry with its CIE.
#[derive(Clone, Copy)]
pub struct Entry<'a> {
    /// Its number among the entries of its section, from 0 on.
    pub index: u64,
    /// The place at which it begins in its section.
    pub(crate) place: usize,
    /// initial_location: the first address that it describes.
    pub begin: u64,
    /// address_range: how many addresses it describes.
    pub range: u64,
    /// The call frame instructions.
    pub program: &'a [u8],
    /// The Common Information Entry that it belongs to.
    pub cie: Cie<'a>,
}

/// The bytes from a place on.
pub(crate) fn rest_at(bytes: &[u8], place: usize) -> &[u8]
    ensures { result.now ≡ drop place bytes.now }
{
    &bytes[place.min(bytes.len())..]
}

/// The bytes of the entry at the front, from its id on.
#[tactic(auto, unfolding(crate::specs::Entry::framed))]
fn framed(rest: &[u8]) -> Result<&[u8], CfiField>
    ensures body { viewed (λ body. body.now) result ≡ spec.framed rest.now }
    ensures id { IfOk result (λ body. 4 ≤ length body.now) }
    ensures within { OnOk result (8 ≤ length rest.now) }
{
    if rest.len() < 4 {
        return Err(CfiField::Length);
    }
    let size = u32_at(rest, 0);
    if size >= 0xffff_fff0 || ((rest.len() - 4) as u64) < u64::from(size) {
        return Err(CfiField::Length);
    }
    if size < 4 {
        return Err(CfiField::Id);
    }
    Ok(part(rest, 4, u64::from(size)))
}

/// Whether an entry is a CIE.
#[tactic(auto, unfolding(crate::specs::Entry::is_cie))]
fn is_cie(format: Format, body: &[u8]) -> bool
    requires { 4 ≤ length body.now }
    ensures { result ≡ spec.is_cie format body.now }
{
    let id = u32_at(body, 0);
    match format {
        Format::EhFrame => id == 0,
        Format::DebugFrame => id == 0xffff_ffff,
    }
}

/// The place at which the CIE of the FDE at a place begins.
fn cie_place(format: Format, place: usize, id: u32) -> Option<usize>
    requires { place + 4 ≤ usize.MAX }
    ensures { result ≡ spec.cie_place format place id }
{
    match format {
        Format::EhFrame => (place + 4).checked_sub(id as usize),
        Format::DebugFrame => Some(id as usize),
    }
}

/// The CIE at a place, if it is one without a fault.
#[tactic(auto, unfolding(crate::specs::Entry::cie_at))]
fn cie_at<'a>(table: &Table<'a>, place: usize) -> Option<Cie<'a>>
    ensures { option_map cie_view result ≡ spec.cie_at (table_view table.now) place }
{
    let body = framed(rest_at(table.bytes, place)).ok()?;
    if !is_cie(table.format, body) {
        return None;
    }
    Cie::read(table.format, &body[4..]).ok()
}

/// The CIE of the FDE at a place.
#[tactic(auto, unfolding(crate::specs::Entry::cie_of))]
fn cie_of<'a>(table: &Table<'a>, place: usize, id: u32) -> Option<Cie<'a>>
    requires { place + 4 ≤ usize.MAX }
    ensures { option_map cie_view result ≡ spec.cie_of (table_view table.now) place id }
{
    let place = cie_place(table.format, place, id)?;
    cie_at(table, place)
}

/// The bytes after the augmentation data, if there are some.
#[tactic(auto, unfolding(crate::specs::Entry::behind_data))]
fn behind_data(augmented: bool, bytes: &[u8]) -> Option<&[u8]>
    ensures { option_map (λ rest. rest.now) result ≡ spec.behind_data augmented bytes.now }
{
    if !augmented {
        return Some(bytes);
    }
    let (_, behind) = sized(bytes)?;
    Some(behind)
}

impl<'a> Entry<'a> {
    ghost use Rattle.call_frames.specs.EntryWords.{entry_view};

    /// Reads an FDE from its CIE_pointer on.
    #[tactic(auto, unfolding(crate::specs::Entry::fde_in))]
    fn read(table: &Table<'a>, spot: Spot, body: &'a [u8]) -> Result<Entry<'a>, CfiField>
        requires id { 4 ≤ length body.now }
        requires within { spot.place + 8 ≤ usize.MAX }
        ensures { viewed entry_view result ≡ spec.fde_in (table_view table.now) spot body.now }
    {
        let Some(cie) = cie_of(table, spot.place, u32_at(body, 0)) else {
            return Err(CfiField::Cie);
        };
        let address = table.address.wrapping_add(spot.place as u64 + 8);
        let Some((begin, rest)) = pointer(cie.encoding, address, &body[4..]) else {
            return Err(CfiField::PcBegin);
        };
        let Some((range, rest)) = extent(cie.encoding, rest) else {
            return Err(CfiField::PcRange);
        };
        let Some(program) = behind_data(cie.augmented, rest) else {
            return Err(CfiField::AugmentationLength);
        };
        Ok(Entry {
            index: spot.index,
            place: spot.place,
            begin,
            range,
            program,
            cie,
        })
    }

    /// Reads the entry at a spot: `None` is a CIE.
    #[tactic(auto, unfolding(crate::specs::Entry::entry_at))]
    pub(crate) fn at(table: &Table<'a>, spot: Spot) -> Result<Option<Entry<'a>>, CfiField>
        ensures { viewed (option_map entry_view) result ≡ spec.entry_at (table_view table.now) spot }
    {
        let body = framed(rest_at(table.bytes, spot.place))?;
        if is_cie(table.format, body) {
            Cie::read(table.format, &body[4..])?;
            return Ok(None);
        }
        Ok(Some(Entry::read(table, spot, body)?))
    }
}
