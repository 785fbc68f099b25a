//! Names of files that may stand below a directory.
ghost use Rattle.std.specs.Prelude.{◌≡◌, ◌==◌};
ghost use Rattle.std.specs.List.{list_all, list_any};
ghost use Rattle.std.specs.Option.{option_map};
ghost use Rattle.case_unpacking.specs.Names as spec;

// The text that the kernel puts after the name of a file that was unlinked.
const DELETED: &[u8] = b" (deleted)";

// The characters that a component may have besides letters and digits.
static MARKS: [u8; 9] = [b'.', b'_', b'+', b'@', b',', b'=', b'%', b'^', b'-'];

// The most bytes of a component: NAME_MAX of Linux.
const MOST: usize = 255;

// The path of a plain name, without its first slash.
pub(crate) fn plain_path(name: &[u8]) -> Option<&[u8]>
    ensures { option_map (λ path. path.now) result ≡ spec.plain_path name.now }
{
    match without_deleted(name) {
        [b'/', path @ ..] if has_components(path) => Some(path),
        _ => None,
    }
}

fn without_deleted(name: &[u8]) -> &[u8]
    ensures { result.now ≡ spec.without_deleted name.now }
{
    if name.ends_with(DELETED) {
        &name[..name.len() - DELETED.len()]
    } else {
        name
    }
}

// Whether the texts between the slashes are names of files.
fn has_components(path: &[u8]) -> bool
    ensures { result ≡ list_all spec.is_component (spec.components path.now) }
{
    path.split(|byte| *byte == b'/')
        .all(|part| is_component(part))
}

fn is_component(part: &[u8]) -> bool
    ensures { result ≡ spec.is_component part.now }
{
    !part.is_empty()
        && part.len() <= MOST
        && part != b".".as_slice()
        && part != b"..".as_slice()
        && has_plain_bytes(part)
}

fn has_plain_bytes(part: &[u8]) -> bool
    ensures { result ≡ list_all spec.is_plain_byte part.now }
{
    part.iter().all(|byte| is_plain_byte(*byte))
}

fn is_plain_byte(byte: u8) -> bool
    ensures { result ≡ spec.is_plain_byte byte }
{
    byte.is_ascii_alphanumeric() || is_mark(byte)
}

fn is_mark(byte: u8) -> bool
    ensures { result ≡ list_any (λ mark. mark == byte) spec.marks }
{
    MARKS.iter().any(|mark| *mark == byte)
}
