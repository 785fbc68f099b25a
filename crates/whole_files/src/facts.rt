// The known facts about a file by the calls that were made on it.

/// The known facts about a file that is made under PATH.part and is to be called PATH, by the calls that were made on it.
#[derive(Clone, Copy)]
pub struct FileFacts {
    /// It was made here, new. A file that was found under PATH.part was not.
    pub is_made: bool,
    /// Its lock was taken.
    pub is_locked: bool,
    /// A sync succeeded, and nothing was done to the file since by which its bytes, its owner or its rights could change.
    pub is_synced: bool,
    /// A sync failed. Then no later one can show whether its bytes are durable.
    pub has_failed_sync: bool,
    /// It was given the name PATH.
    pub is_named: bool,
    /// Its directory was synced since then.
    pub is_durable: bool,
    /// It took the name PATH from another file.
    pub has_replaced: bool,
    /// The name PATH.part is not left to it: it was renamed, its removal was asked for, or another file was seen there.
    pub is_let_go: bool,
    /// The facts that the latest call has shown about its names.
    pub looks: Looks,
}

/// The facts that the latest call has shown about a file's names. Each
/// other call ends them: another process may act on the names at any time.
#[derive(Clone, Copy)]
pub struct Looks {
    /// PATH.part names the file.
    pub is_at_part: bool,
    /// PATH names the file.
    pub is_at_path: bool,
    /// PATH names the other file, whose place it is to take.
    pub is_old_at_path: bool,
    /// PATH names no file.
    pub is_path_free: bool,
}
