// The values of addresses in a row.
ghost use Rattle.std.specs.Prelude.{◌≡◌, ◌+◌, ◌<◌, ◌≤◌, ℕ, [], Some, None, MatchBool, MatchOption, IfSome, length, slice_index};
ghost use Rattle.std.specs.Option.{option_map};
ghost use Rattle.elf_view.specs.SegmentWords.{segment_view};
ghost use Rattle.address_space.specs.Source.{Space, content_by, placed, value_of};
ghost use Rattle.address_space.specs.CursorWords.{IsRun, value_in};
ghost use Rattle.address_space.specs.SourceWords.{bytes_in, kind_view};
ghost use Rattle.address_space.specs.SpaceWords.{space_of};

use crate::source::PieceKind;
use crate::space::AddressSpace;
use elf_view::{Segment, part};

/// Addresses with one deciding segment, which all have a value or none.
#[derive(Clone, Copy)]
pub(crate) struct Run<'a> {
    /// The number of the segment.
    pub number: Option<u64>,
    /// How many addresses there are.
    pub length: u64,
    /// Their values.
    pub bytes: Option<&'a [u8]>,
}

/// The values of the addresses of a piece.
fn bytes_of(kind: PieceKind) -> Option<&[u8]>
    ensures { option_map (λ bytes. bytes.now) result ≡ bytes_in (kind_view kind.entry) }
{
    match kind {
        PieceKind::Bytes(bytes) => Some(bytes),
        PieceKind::FromFile(bytes) => Some(bytes),
        PieceKind::NotDumped(_) => None,
        PieceKind::Cut => None,
        PieceKind::Unmapped => None,
    }
}

/// The values of the addresses, if the segment of that number decides them.
pub(crate) fn values_by<'a>(run: Run<'a>, number: u64) -> Option<&'a [u8]>
    ensures { MatchOption result
        ((run.entry.number ≡ Some number → option_map (λ bytes. bytes.now) run.entry.bytes ≡ None))
        (λ b. (run.entry.number ≡ Some number) × (option_map (λ bytes. bytes.now) run.entry.bytes ≡ Some b.now)) }
{
    if run.number == Some(number) {
        run.bytes
    } else {
        None
    }
}

/// Whether the segment of that number decides the addresses.
pub(crate) fn is_by(run: Run, number: u64) -> bool
    ensures { MatchBool result (run.entry.number ≡ Some number) (¬ (run.entry.number ≡ Some number)) }
{
    match run.number {
        Some(by) => by == number,
        None => false,
    }
}

/// The bytes that the core has of the segment from `at` on, and how many of the `limit` addresses have them. If it has no
/// byte there, how many addresses have none.
fn held_from<'a>(segment: Segment<'a>, at: u64, limit: u64) -> (Option<&'a [u8]>, u64)
    requires some { 0 < limit }
    requires first { segment.vaddr ≤ at }
    requires held { length segment.bytes.now ≤ segment.filesz }
    ensures some { 0 < result.1 }
    ensures within { result.1 ≤ limit }
    ensures values { (space : Space) (i k : ℕ) → space.executables ≡ [] → k < result.1
        → value_of (content_by slice_index (at + k) (placed space (at + k) (Some (i, segment_view segment.entry))))
        ≡ value_in (option_map (λ bytes. bytes.now) result.0) k }
    ensures full { IfSome result.0 (λ bytes. length bytes.now ≡ result.1) }
{
    let place = at - segment.vaddr;
    let size = segment.bytes.len() as u64;
    if place >= size {
        return (None, limit);
    }
    let length = limit.min(size - place);
    (Some(part(segment.bytes, place, length)), length)
}

impl<'a> AddressSpace<'a> {
    /// The values of addresses from `at` on, if they have any, if no executable is attached. NT_FILE is not read.
    fn run_in_core(&self, at: u64, limit: u64) -> Run<'a>
        requires some { 0 < limit }
        requires alone { (space_of self.now).executables ≡ [] }
        ensures run { IsRun (space_of self.now) at limit result.length result.number
            (option_map (λ bytes. bytes.now) result.bytes) }
        ensures full { IfSome result.bytes (λ bytes. length bytes.now ≡ result.length) }
    {
        let (decided, length) = self.decide(at, limit);
        let Some(decided) = decided else {
            return Run {
                number: None,
                length,
                bytes: None,
            };
        };
        let (bytes, length) = held_from(decided.segment, at, length);
        Run {
            number: Some(decided.number),
            length,
            bytes,
        }
    }

    /// The values of addresses from `at` on, if they have any.
    pub(crate) fn run(&self, at: u64, limit: u64) -> Run<'a>
        requires { 0 < limit }
        ensures run { IsRun (space_of self.now) at limit result.length result.number
            (option_map (λ bytes. bytes.now) result.bytes) }
        ensures full { IfSome result.bytes (λ bytes. length bytes.now ≡ result.length) }
    {
        if self.executables.is_empty() {
            return self.run_in_core(at, limit);
        }
        let located = self.locate(at, limit);
        Run {
            number: located.number,
            length: located.length,
            bytes: bytes_of(located.kind),
        }
    }
}
