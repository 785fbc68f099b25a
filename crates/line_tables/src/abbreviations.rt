// Abbreviations.
ghost use Rattle.std.specs.Prelude.{◌≡◌};
ghost use Rattle.std.specs.Option.{option_map};
ghost use Rattle.line_tables.specs.Abbreviations as spec;

use crate::texts::first_byte;
use call_frames::uleb;

/// The name and the form of an attribute, and the bytes after them.
#[tactic(auto, unfolding(crate::specs::Abbreviations::specification))]
pub(crate) fn specification(bytes: &[u8]) -> Option<(u64, u64, &[u8])>
    ensures { option_map (λ r. (r.0, r.1, r.2.now)) result ≡ spec.specification bytes.now }
{
    let (name, rest) = uleb(bytes)?;
    let (form, rest) = uleb(rest)?;
    Some((name, form, rest))
}

/// Whether a name and a form end the specifications of a declaration.
pub(crate) fn is_end(name: u64, form: u64) -> bool
    ensures { result ≡ spec.is_end name form }
{
    name == 0 && form == 0
}

/// The bytes after a declaration that begins with these specifications.
fn behind_declaration(specifications: &[u8]) -> Option<&[u8]>
    ensures { option_map (λ r. r.now) result ≡ spec.behind_declaration specifications.now }
{
    let mut rest = specifications;
    for i in 0..specifications.len() {
        let (name, form, behind) = specification(rest)?;
        if is_end(name, form) {
            return Some(behind);
        }
        rest = behind;
    }
    None
}

/// The code of the declaration at the front, and the bytes that begin with its specifications.
#[tactic(auto, unfolding(crate::specs::Abbreviations::declaration))]
fn declaration(bytes: &[u8]) -> Option<(u64, &[u8])>
    ensures { option_map (λ r. (r.0, r.1.now)) result ≡ spec.declaration bytes.now }
{
    let (code, rest) = uleb(bytes)?;
    if code == 0 {
        return None;
    }
    let (_, rest) = uleb(rest)?;
    let (_, rest) = first_byte(rest)?;
    Some((code, rest))
}

/// The bytes that begin with the specifications of an abbreviation code, in the table at the front.
fn declared_in(table: &[u8], code: u64) -> Option<&[u8]>
    ensures { option_map (λ r. r.now) result ≡ spec.declared_in table.now code }
{
    let mut rest = table;
    for i in 0..table.len() {
        let (found, specifications) = declaration(rest)?;
        if found == code {
            return Some(specifications);
        }
        rest = behind_declaration(specifications)?;
    }
    None
}

/// The bytes that begin with the specifications of an abbreviation code, in the table at a place of `.debug_abbrev`.
#[tactic(auto, unfolding(crate::specs::Abbreviations::declared_at))]
pub(crate) fn declared_at(debug_abbrev: &[u8], place: u64, code: u64) -> Option<&[u8]>
    ensures { option_map (λ r. r.now) result ≡ spec.declared_at debug_abbrev.now place code }
{
    let start = place.min(debug_abbrev.len() as u64) as usize;
    declared_in(&debug_abbrev[start..], code)
}
