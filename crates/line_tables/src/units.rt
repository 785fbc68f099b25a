// The units of `.debug_line` and `.debug_info`.
ghost use Rattle.std.specs.Prelude.{◌≡◌, ◌+◌, ◌<◌, ◌^◌, length};
ghost use Rattle.std.specs.Option.{option_map};
ghost use Rattle.line_tables.specs.Units as spec;

use crate::texts::{number, split};

/// A unit of `.debug_line`, which is one line table, or of `.debug_info`.
#[derive(Clone, Copy)]
pub struct Unit<'a> {
    /// Its number in the section, from 0 on.
    pub index: u64,
    /// The place of its first byte in the section.
    pub place: u64,
    /// Its bytes from after the unit_length on. `None` if the unit_length is bad: fewer than four bytes are left, the
    /// length is that of 64-bit DWARF or reserved, or the unit does not fit in the section. This is the last unit then.
    pub bytes: Option<&'a [u8]>,
}

/// The units of a section, in order.
#[derive(Clone, Copy)]
pub struct Units<'a> {
    rest: &'a [u8],
    index: u64,
    place: u64,
    ghost few: { index + length rest.now < 2 ^ 64 },
    ghost within: { place + length rest.now < 2 ^ 64 },
}

/// The bytes of the unit at the front, and those after it.
#[tactic(auto, unfolding(crate::specs::Units::framed))]
fn framed(rest: &[u8]) -> Option<(&[u8], &[u8])>
    ensures { option_map (λ r. (r.0.now, r.1.now)) result ≡ spec.framed rest.now }
{
    let (size, rest) = number(4, rest)?;
    if size >= 0xffff_fff0 {
        return None;
    }
    split(size, rest)
}

impl<'a> Unit<'a> {
    ghost use Rattle.line_tables.specs.UnitWords.{unit_view};

    /// The unit at the front, and the bytes after it.
    fn first(index: u64, place: u64, rest: &'a [u8]) -> (Unit<'a>, &'a [u8])
        ensures unit { unit_view result.0 ≡ spec.unit_of index place (spec.framed rest.now) }
        ensures behind { result.1.now ≡ spec.behind_unit (spec.framed rest.now) }
    {
        match framed(rest) {
            Some((bytes, behind)) => {
                let bytes = Some(bytes);
                let unit = Unit {
                    index,
                    place,
                    bytes,
                };
                (unit, behind)
            }
            None => {
                let unit = Unit {
                    index,
                    place,
                    bytes: None,
                };
                (unit, &[])
            }
        }
    }
}

impl<'a> Units<'a> {
    ghost use Rattle.line_tables.specs.UnitWords.{units_left};

    /// The units of a section whose units have such a unit_length: `.debug_line` or `.debug_info`.
    pub fn of(section: &'a [u8]) -> Units<'a>
        ensures { units_left result ≡ spec.units_in section.now }
    {
        Units {
            rest: section,
            index: 0,
            place: 0,
        }
    }
}

impl<'a> Iterator for Units<'a> {
    ghost use Rattle.std.specs.Iterator.{YieldsFirstBy, item_count};
    ghost use Rattle.line_tables.specs.UnitWords.{unit_view, units_left};

    type Item = Unit<'a>;

    ghost next_gives = { YieldsFirstBy unit_view units_left };

    ghost remaining = { item_count units_left };

    fn next(&mut self) -> Option<Unit<'a>> {
        if self.rest.is_empty() {
            return None;
        }
        let (unit, behind) = Unit::first(self.index, self.place, self.rest);
        self.index += 1;
        self.place += (self.rest.len() - behind.len()) as u64;
        self.rest = behind;
        Some(unit)
    }
}
