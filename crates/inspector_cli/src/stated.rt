// A file of which the length or the digest is stated.
ghost use Rattle.std.specs.Prelude.{◌≡◌, ℕ, List, [], length};
ghost use Rattle.inspector_cli.specs.Fitting.{EndsAt, IsWithin};
ghost use Rattle.inspector_cli.specs.Stated.{HashesOn, IsHashed, MatchesDigest};

use crate::store::TakeStop;
use sha2::{Digest, Sha256};

/// The stated facts about a file.
#[derive(Clone, Copy)]
pub(crate) struct Stated {
    /// How many bytes it has, if that is stated.
    pub(crate) length: Option<u64>,
    /// The SHA-256 of its bytes, if that is stated.
    pub(crate) digest: Option<[u8; 32]>,
}

/// How a file differs from its stated facts.
#[derive(Clone, Copy)]
pub(crate) enum Difference {
    /// It ends before the length.
    Short,
    /// It goes on behind the length.
    Long,
    /// It has the length, if one is stated, and another digest.
    Digest,
}

// A hasher that holds no bytes, if a digest is stated.
pub(crate) fn hasher_for(digest: Option<[u8; 32]>) -> Option<Sha256>
    ensures { IsHashed digest result [] }
{
    match digest {
        Some(_) => Some(Sha256::new()),
        None => None,
    }
}

// Adds bytes to those that are hashed, if any are.
pub(crate) fn hash_on(hasher: &mut Option<Sha256>, bytes: &[u8])
    ensures { HashesOn hasher.old hasher.new bytes.now }
{
    match hasher {
        Some(hasher) => hasher.update(bytes),
        None => {}
    }
}

// Whether a file that ended behind so many bytes, which are hashed if a digest is stated, is the one that was stated.
pub(crate) fn end_at(stated: Stated, taken: u64, hasher: Option<Sha256>) -> Result<(), TakeStop>
    requires { IsWithin stated.length taken }
    ensures { (raw : List ℕ) → taken ≡ length raw → IsHashed stated.digest hasher raw → EndsAt stated raw result }
{
    match stated.length {
        Some(length) if taken < length => Err(TakeStop::Differs(Difference::Short)),
        _ if has_digest(stated.digest, hasher) => Ok(()),
        _ => Err(TakeStop::Differs(Difference::Digest)),
    }
}

// Whether the bytes that are hashed have this digest, if one is stated.
fn has_digest(digest: Option<[u8; 32]>, hasher: Option<Sha256>) -> bool
    ensures { (raw : List ℕ) → IsHashed digest hasher raw → MatchesDigest digest raw result }
{
    match (digest, hasher) {
        (Some(digest), Some(hasher)) => hasher.finalize() == digest,
        _ => true,
    }
}
