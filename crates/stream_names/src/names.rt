// The streams that lines begin, and their names.
ghost use Rattle.std.specs.Prelude.{◌≡◌, ◌<◌, ◌≤◌, ◌==◌, false, length};
ghost use Rattle.std.specs.List.{list_any};
ghost use Rattle.disk_model.specs.Places.{AreBytes};

use journal_layout::{Kind, Name};

/// A stream with no bytes yet.
#[derive(Drop)]
pub struct NewStream {
    /// Of which kind its case is.
    pub kind: Kind,
    /// The name of its case: some bytes, with no NUL among them.
    pub name: Name,
    /// The process that dumped core, or 0.
    pub pid: u32,
    /// The signal that ended it, or 0.
    pub signal: u32,
    /// When, in seconds since the epoch, or 0.
    pub time: u64,
    ghost some: { 0 < length name.items },
    ghost no_nul: { list_any (λ c. c == 0) name.items ≡ false },
}

// Whether a NUL is among the bytes.
pub(crate) fn has_nul(text: &[u8]) -> bool
    ensures { result ≡ list_any (λ c. c == 0) text.now }
{
    text.iter().any(|byte| *byte == 0)
}

/// A text that a name has room for, as a name.
pub fn copied(text: &[u8]) -> Name
    requires { length text.now ≤ 128 }
    ensures same { result.items ≡ text.now }
    ensures bytes { AreBytes text.now }
{
    let mut name = Name::new();
    let _ = name.try_extend_from_slice(text);
    name
}
