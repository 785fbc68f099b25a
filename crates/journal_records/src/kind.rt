// The kinds of records.
ghost use Rattle.std.specs.Prelude.{◌≡◌, ◌≤◌, ◌||◌, not, nat_le, IfSome};
ghost use Rattle.std.specs.Prelude.{◌&&◌};
ghost use Rattle.std.specs.Option.{is_none};
ghost use Rattle.journal_layout.specs.Soundness.{last_kind};
ghost use Rattle.journal_records.specs.Head.{byte_of};

/// The kind of a record, by the byte after its gate.
#[derive(Clone, Copy)]
pub(crate) enum RecordKind {
    /// A case begins.
    Store,
    /// Some cases end.
    Drop,
    /// A case is pinned from here on, or no longer.
    Pin,
    /// The next case gets a number.
    Next,
    /// A case has a label from here on.
    Label,
}

/// The kind of a byte in a half of this version, if it has one.
pub(crate) fn kind_of(version: u32, byte: u8) -> Option<RecordKind>
    ensures known { is_none result ≡ not (nat_le 1 byte && nat_le byte (last_kind version)) }
    ensures kind { IfSome result (λ kind. byte_of kind ≡ byte) }
{
    match byte {
        1 => Some(RecordKind::Store),
        2 => Some(RecordKind::Drop),
        3 => Some(RecordKind::Pin),
        4 => Some(RecordKind::Next),
        5 if version == 2 => Some(RecordKind::Label),
        _ => None,
    }
}
