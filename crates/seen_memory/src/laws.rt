// Consequences of the definitions that the contracts cite.
ghost use Rattle.seen_memory.specs.Unread.{UnreadBytesAreNotTold};

/// A value that depends on a byte that is not at hand is not given: `value`
/// and `word` then answer that the byte is wanted. This function does nothing.
pub fn unread_bytes_are_not_told()
    ensures { UnreadBytesAreNotTold }
{}
