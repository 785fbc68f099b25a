// The first debugging information entry of a unit, and its attributes.
ghost use Rattle.std.specs.Prelude.{◌≡◌, ◌==◌, find, if◌then◌else◌};
ghost use Rattle.std.specs.Option.{option_map, option_or};
ghost use Rattle.line_tables.specs.InfoEntries as spec;
ghost use Rattle.line_tables.specs.InfoEntryWords.{attribute_view, entry_view};

use crate::abbreviations::{declared_at, is_end, specification};
use crate::info_forms::{behind_value, resolved};
use crate::texts::{first_byte, number, text, text_at};
use call_frames::uleb;

/// An entry of a unit.
#[derive(Clone, Copy)]
pub(crate) struct Entry<'a> {
    /// The version of the unit, 2 to 4.
    pub(crate) version: u8,
    /// The bytes that begin with the specifications of the attributes.
    specifications: &'a [u8],
    /// The bytes that begin with the values of the attributes.
    values: &'a [u8],
}

/// An attribute of an entry.
#[derive(Clone, Copy)]
pub(crate) struct Attribute<'a> {
    name: u64,
    form: u64,
    /// The bytes that begin with the value.
    bytes: &'a [u8],
}

/// The version of a unit, the place of its abbreviations, and the bytes after its header.
#[tactic(auto, unfolding(crate::specs::InfoEntries::header_in))]
fn header_in(bytes: &[u8]) -> Option<(u8, u64, &[u8])>
    ensures { option_map (λ r. (r.0, r.1, r.2.now)) result ≡ spec.header_in bytes.now }
{
    let (version, rest) = number(2, bytes)?;
    if version < 2 || version > 4 {
        return None;
    }
    let (abbreviations, rest) = number(4, rest)?;
    let (address_size, rest) = first_byte(rest)?;
    if address_size != 8 {
        return None;
    }
    Some((version as u8, abbreviations, rest))
}

impl<'a> Attribute<'a> {
    /// The attribute whose value is at the front, and the bytes after the value.
    #[tactic(auto, unfolding(crate::specs::InfoEntries::attribute_in))]
    fn read(version: u8, name: u64, form: u64, bytes: &'a [u8]) -> Option<(Attribute<'a>, &'a [u8])>
        ensures { option_map (λ r. (attribute_view r.0, r.1.now)) result ≡ spec.attribute_in version name form bytes.now }
    {
        let (form, bytes) = resolved(form, bytes)?;
        let rest = behind_value(version, form, bytes)?;
        let attribute = Attribute { name, form, bytes };
        Some((attribute, rest))
    }

    /// The attribute, if it has that name.
    fn if_named(self, name: u64) -> Option<Attribute<'a>>
        ensures { option_map attribute_view result
            ≡ (if spec.is_named name (attribute_view self.entry) then Some (attribute_view self.entry) else None) }
    {
        if self.name == name { Some(self) } else { None }
    }

    /// The text that the value is.
    #[tactic(auto, unfolding(crate::specs::InfoEntries::text_of))]
    pub(crate) fn text(&self, debug_str: &'a [u8]) -> Option<&'a [u8]>
        ensures { option_map (λ t. t.now) result ≡ spec.text_of debug_str.now (attribute_view self.now) }
    {
        match self.form {
            0x08 => Some(text(self.bytes)?.0),
            0x0e => text_at(debug_str, number(4, self.bytes)?.0),
            _ => None,
        }
    }

    /// The place in another section that the value is.
    #[tactic(auto, unfolding(crate::specs::InfoEntries::place_of))]
    pub(crate) fn place(&self, version: u8) -> Option<u64>
        ensures { result ≡ spec.place_of version (attribute_view self.now) }
    {
        let place_form = if version == 4 { 0x17 } else { 0x06 };
        if self.form != place_form {
            return None;
        }
        Some(number(4, self.bytes)?.0)
    }
}

impl<'a> Entry<'a> {
    /// The entry at the front of the bytes of a unit.
    #[tactic(auto, unfolding(crate::specs::InfoEntries::entry_in))]
    pub(crate) fn read(debug_abbrev: &'a [u8], bytes: &'a [u8]) -> Option<Entry<'a>>
        ensures { option_map entry_view result ≡ spec.entry_in debug_abbrev.now bytes.now }
    {
        let (version, abbreviations, rest) = header_in(bytes)?;
        let (code, values) = uleb(rest)?;
        let specifications = declared_at(debug_abbrev, abbreviations, code)?;
        Some(Entry {
            version,
            specifications,
            values,
        })
    }

    /// The first attribute of a name, if all the attributes are there.
    #[tactic(auto, unfolding(crate::specs::InfoEntries::attribute))]
    pub(crate) fn attribute(&self, name: u64) -> Option<Attribute<'a>>
        ensures { option_map attribute_view result ≡ spec.attribute name (entry_view self.now) }
    {
        let mut found = None;
        let mut specifications = self.specifications;
        let mut values = self.values;
        for i in 0..self.specifications.len() {
            let (attribute_name, form, behind) = specification(specifications)?;
            if is_end(attribute_name, form) {
                return found;
            }
            let (attribute, rest) = Attribute::read(self.version, attribute_name, form, values)?;
            found = found.or(attribute.if_named(name));
            specifications = behind;
            values = rest;
        }
        None
    }
}
