// Texts, as they stand on a page.
ghost use Rattle.std.specs.Prelude.{◌≡◌, ◌++◌, OnOk};
ghost use Rattle.case_pages.specs.Escaping.{escape, escape_byte, plain_byte};

use script_words::print_byte;
use std::alloc::AllocError;

// Puts a text at the end of a page.
pub(crate) fn push_text(page: &mut Vec<u8>, text: &[u8]) -> Result<(), AllocError>
    ensures { OnOk result (page.new.items ≡ page.old.items ++ escape text.now) }
{
    for byte in text {
        push_byte(page, *byte)?;
    }
    Ok(())
}

fn push_byte(page: &mut Vec<u8>, byte: u8) -> Result<(), AllocError>
    ensures { OnOk result (page.new.items ≡ page.old.items ++ escape_byte byte) }
{
    if byte == b'&' {
        page.extend_from_slice(b"&amp;")
    } else if byte == b'<' {
        page.extend_from_slice(b"&lt;")
    } else if byte == b'>' {
        page.extend_from_slice(b"&gt;")
    } else if byte == b'"' {
        page.extend_from_slice(b"&quot;")
    } else if byte == b'\'' {
        page.extend_from_slice(b"&#39;")
    } else {
        push_plain(page, byte)
    }
}

// Puts a byte at the end as it is shown.
fn push_plain(page: &mut Vec<u8>, byte: u8) -> Result<(), AllocError>
    ensures { OnOk result (page.new.items ≡ page.old.items ++ plain_byte byte) }
{
    if byte == b' ' {
        page.extend_from_slice(b" ")
    } else {
        page.extend_from_slice(print_byte(byte).as_slice())
    }
}
