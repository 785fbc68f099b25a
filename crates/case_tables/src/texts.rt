// How long texts print.
ghost use Rattle.std.specs.Prelude.{◌≡◌, ◌≤◌, length};
ghost use Rattle.std.specs.List.{flat_map};
ghost use Rattle.script_words.specs.Printing.{shown, shown_byte};

use script_words::print_byte;

/// How many bytes a text of at most 128 bytes prints as.
pub fn shown_length(text: &[u8]) -> usize
    requires { length text.now ≤ 128 }
    ensures { result ≡ length (shown text.now) }
{
    match text {
        [] => 1,
        [b'-'] => 4,
        _ => bytes_length(text),
    }
}

// How many bytes the bytes of a text print as, one after the other.
fn bytes_length(text: &[u8]) -> usize
    requires { length text.now ≤ 128 }
    ensures { result ≡ length (flat_map shown_byte text.now) }
{
    let mut total = 0;
    for byte in text {
        total += print_byte(*byte).len();
    }
    total
}
