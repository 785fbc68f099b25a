// Notes, one by one and as an iterator over the PT_NOTE segments.
ghost use Rattle.std.specs.Prelude.{◌≡◌, ◌+◌, ◌*◌, ◌/◌, ◌++◌, ◌<◌, ◌≤◌, [], IsTrue, drop, length, MatchOption, IfOk};
ghost use Rattle.elf_view.specs.NoteList as spec;
ghost use Rattle.elf_view.specs.Sound.{AreNotesWhole, is_note_whole};
ghost use Rattle.elf_view.specs.SegmentWords.{segments_left};
ghost use Rattle.std.specs.Result.{result_err};

use crate::numbers::{part, u32_at};
use crate::program_headers::Segments;

/// A note (System V gABI, "Note Section").
#[derive(Clone, Copy, Debug)]
pub struct Note<'a> {
    /// Its name, without one closing NUL.
    pub name: &'a [u8],
    /// n_type.
    pub kind: u32,
    /// Its descriptor, without padding.
    pub desc: &'a [u8],
}

/// The notes of all PT_NOTE segments, in table order.
#[derive(Clone, Copy, Debug)]
pub struct Notes<'a> {
    rest: &'a [u8],
    segments: Segments<'a>,
    ghost whole: { AreNotesWhole (spec.rests_left rest.now (segments_left segments)) },
}

/// A name without one closing NUL.
#[tactic(auto, unfolding(crate::specs::NoteList::without_closing_nul))]
fn without_closing_nul(name: &[u8]) -> &[u8]
    ensures { result.now ≡ spec.without_closing_nul name.now }
{
    match name.split_last() {
        Some((0, before)) => before,
        _ => name,
    }
}

/// The bytes that `size` bytes take with their padding to a multiple of four.
pub(crate) fn padded(size: u32) -> u64
    ensures { result ≡ spec.padded size }
{
    (u64::from(size) + 3) / 4 * 4
}

impl<'a> Note<'a> {
    ghost use Rattle.elf_view.specs.NoteWords.{note_view};

    /// The note at the front of the bytes.
    #[tactic(auto, unfolding(crate::specs::NoteList::note_at))]
    fn first(bytes: &'a [u8]) -> Note<'a>
        requires { 12 ≤ length bytes.now }
        ensures { note_view result ≡ spec.note_at bytes.now }
    {
        let name_size = u32_at(bytes, 0);
        let desc_size = u32_at(bytes, 4);
        let name = part(bytes, 12, u64::from(name_size));
        Note {
            name: without_closing_nul(name),
            kind: u32_at(bytes, 8),
            desc: part(bytes, 12 + padded(name_size), u64::from(desc_size)),
        }
    }
}

/// The bytes that are left after the note at the front of the bytes.
#[tactic(auto, unfolding(crate::specs::NoteList::note_len))]
pub(crate) fn behind_first(bytes: &[u8]) -> &[u8]
    requires { 12 ≤ length bytes.now }
    ensures { result.now ≡ drop (spec.note_len bytes.now) bytes.now }
{
    let size = 12 + padded(u32_at(bytes, 0)) + padded(u32_at(bytes, 4));
    &bytes[size.min(bytes.len() as u64) as usize..]
}

/// The bytes of the next segment that has notes.
fn next_note_bytes<'a>(segments: &mut Segments<'a>) -> Option<&'a [u8]>
    ensures { MatchOption result
        ((spec.all_rests (segments_left segments.old) ≡ []) × (spec.all_rests (segments_left segments.new) ≡ []))
        (λ bytes. (0 < length bytes.now)
        × (spec.all_rests (segments_left segments.old)
        ≡ spec.rests_left bytes.now (segments_left segments.new))) }
{
    while let Some(segment) = segments.next() {
        let bytes = segment.note_bytes();
        if !bytes.is_empty() {
            return Some(bytes);
        }
    }
    None
}

/// The bytes that begin with the next note: the rest of one segment, or else those of another.
#[tactic(auto, unfolding(crate::specs::NoteList::rests_past))]
fn bytes_from_next<'a>(rest: &'a [u8], segments: &mut Segments<'a>) -> Option<&'a [u8]>
    ensures { MatchOption result
        ((spec.rests_left rest.now (segments_left segments.old) ≡ [])
        × (spec.rests_left rest.now (segments_left segments.new) ≡ []))
        (λ bytes. (0 < length bytes.now)
        × (spec.rests_left rest.now (segments_left segments.old)
        ≡ spec.rests_left bytes.now (segments_left segments.new))) }
{
    if rest.is_empty() {
        next_note_bytes(segments)
    } else {
        Some(rest)
    }
}

impl<'a> Notes<'a> {
    ghost use Rattle.std.specs.Prelude.{map};
    ghost use Rattle.elf_view.specs.NoteWords.{notes_left};

    /// The notes of the segments that are left.
    #[tactic(auto, unfolding(crate::specs::NoteWords::notes_left, crate::specs::NoteList::rests_past))]
    pub(crate) fn new(segments: Segments<'a>) -> Notes<'a>
        requires { AreNotesWhole (spec.all_rests (segments_left segments)) }
        ensures { notes_left result ≡ map spec.note_at (spec.all_rests (segments_left segments.entry)) }
    {
        Notes {
            rest: &[],
            segments,
        }
    }
}

impl<'a> Iterator for Notes<'a> {
    ghost use Rattle.std.specs.Iterator.{YieldsFirstBy, item_count};
    ghost use Rattle.elf_view.specs.NoteWords.{note_view, notes_left};

    type Item = Note<'a>;

    ghost next_gives = { YieldsFirstBy note_view notes_left };

    ghost remaining = { item_count notes_left };

    fn next(&mut self) -> Option<Note<'a>> {
        let bytes = bytes_from_next(self.rest, &mut self.segments)?;
        self.rest = behind_first(bytes);
        Some(Note::first(bytes))
    }
}
