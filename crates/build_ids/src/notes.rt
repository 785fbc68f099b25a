// The notes of an executable, one by one.
ghost use Rattle.std.specs.Prelude.{◌≡◌, ◌≤◌, ◌<◌, ◌^◌, MatchOption, drop, false, length, true};
ghost use Rattle.build_ids.specs.BuildId as ids;
ghost use Rattle.build_ids.specs.NoteWords.{note_view};
ghost use Rattle.build_ids.specs.Notes as spec;

use crate::padding::Padding;
use elf_view::{part, u32_at};

/// The type of a note that holds a build ID.
const NT_GNU_BUILD_ID: u32 = 3;

/// A note (System V gABI, "Note Section").
#[derive(Clone, Copy)]
pub(crate) struct Note<'a> {
    /// Its name, with each NUL.
    pub name: &'a [u8],
    /// n_type.
    pub kind: u32,
    /// Its descriptor, without padding.
    pub desc: &'a [u8],
}

/// Where the descriptor of the note at the front of the bytes begins.
fn desc_at(bytes: &[u8], padding: Padding) -> u64
    requires { 12 ≤ length bytes.now }
    ensures is { result ≡ spec.desc_at padding bytes.now }
    ensures small { result < 2 ^ 33 }
{
    padding.padded(12 + u64::from(u32_at(bytes, 0)))
}

/// Whether the note at the front of the bytes is whole: its 12 bytes are there, and its descriptor is.
#[tactic(auto, unfolding(crate::specs::Notes::is_whole))]
fn is_whole(bytes: &[u8], padding: Padding) -> bool
    ensures { result ≡ spec.is_whole padding bytes.now }
{
    if bytes.len() < 12 {
        return false;
    }
    desc_at(bytes, padding) + u64::from(u32_at(bytes, 4)) <= bytes.len() as u64
}

/// The bytes from the note after the first on.
#[tactic(auto, unfolding(crate::specs::Notes::note_len))]
pub(crate) fn behind_first(bytes: &[u8], padding: Padding) -> &[u8]
    requires { 12 ≤ length bytes.now }
    ensures { result.now ≡ drop (spec.note_len padding bytes.now) bytes.now }
{
    let past = desc_at(bytes, padding) + u64::from(u32_at(bytes, 4));
    let next = padding.padded(past);
    &bytes[next.min(bytes.len() as u64) as usize..]
}

impl<'a> Note<'a> {
    /// The note at the front of the bytes.
    #[tactic(auto, unfolding(crate::specs::Notes::note_at))]
    fn read(bytes: &'a [u8], padding: Padding) -> Note<'a>
        requires { 12 ≤ length bytes.now }
        ensures { note_view result ≡ spec.note_at padding bytes.now }
    {
        let name_size = u64::from(u32_at(bytes, 0));
        let desc_size = u64::from(u32_at(bytes, 4));
        Note {
            name: part(bytes, 12, name_size),
            kind: u32_at(bytes, 8),
            desc: part(bytes, desc_at(bytes, padding), desc_size),
        }
    }

    /// The note at the front of the bytes, if it is whole.
    #[tactic(auto, unfolding(crate::specs::Notes::is_whole))]
    pub(crate) fn first(bytes: &'a [u8], padding: Padding) -> Option<Note<'a>>
        ensures { MatchOption result (spec.is_whole padding bytes.now ≡ false)
            (λ note. (spec.is_whole padding bytes.now ≡ true) × (note_view note ≡ spec.note_at padding bytes.now)) }
    {
        if is_whole(bytes, padding) {
            Some(Note::read(bytes, padding))
        } else {
            None
        }
    }

    /// Whether it holds a build ID.
    #[tactic(auto, unfolding(crate::specs::BuildId::is_build_id))]
    pub(crate) fn is_build_id(&self) -> bool
        ensures { result ≡ ids.is_build_id (note_view self.now) }
    {
        self.name == b"GNU\0".as_slice()
            && self.kind == NT_GNU_BUILD_ID
            && !self.desc.is_empty()
            && self.desc.len() <= 64
    }
}
