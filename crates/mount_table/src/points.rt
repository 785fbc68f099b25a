// Mount points and the paths below them.
ghost use Rattle.std.specs.Prelude.{◌≡◌, ◌<◌, [], ◌∷◌, length, MatchOption};
ghost use Rattle.mount_table.specs.Points.{depth_of, escape_of, unescaped};

/// How many bytes a mount point has, if it is a path or a directory above it. The point has the line's escapes.
pub(crate) fn depth_of(point: &[u8], path: &[u8]) -> Option<usize>
    ensures { result ≡ depth_of (unescaped point.now) path.now }
{
    let mut point = point;
    let mut left = path;
    let mut after_slash = false;
    while let Some((byte, behind)) = next_byte(point) {
        match left.split_first() {
            Some((first, others)) if *first == byte => {
                left = others;
            }
            _ => return None,
        }
        point = behind;
        after_slash = byte == b'/';
    }
    if after_slash || left.is_empty() || left[0] == b'/' {
        Some(path.len() - left.len())
    } else {
        None
    }
}

// The first byte of a mount point, and the point behind it.
fn next_byte(point: &[u8]) -> Option<(u8, &[u8])>
    ensures byte { MatchOption result (unescaped point.now ≡ [])
        (λ found. unescaped point.now ≡ found.0 ∷ unescaped found.1.now) }
    ensures shorter { MatchOption result (Unit {0}) (λ found. length found.1.now < length point.now) }
{
    let (first, rest) = point.split_first()?;
    if *first != b'\\' {
        return Some((*first, rest));
    }
    match escape_of(rest) {
        Some(byte) => Some((byte, rest.split_at(3).1)),
        None => Some((*first, rest)),
    }
}

// The byte of three octal digits at the front of the text after a backslash.
fn escape_of(rest: &[u8]) -> Option<u8>
    ensures { result ≡ escape_of rest.now }
{
    match rest {
        [
            high @ b'0'..=b'3',
            middle @ b'0'..=b'7',
            low @ b'0'..=b'7',
            ..
        ] => { Some(64 * (*high - b'0') + 8 * (*middle - b'0') + (*low - b'0')) }
        _ => None,
    }
}
