//! Sections of an image: the bytes of one that objcopy compressed are those that it decompresses, and one that can't be read is no data.
use elf_view::{Elf, Want};
use inflate::{FoundSection, read_section};
use std::alloc::Global;
use std::process::Abort;
use std::test::Fail;

// The address of its section `.debug_str` is 0x1234. Its compressed data begin at byte 0x40.
static IMAGE: &[u8] =
    b"\x7f\x45\x4c\x46\x02\x01\x01\x00\x00\x00\x00\x00\x00\x00\x00\x00\x02\x00\xf3\x00\x01\x00\x00\x00\x00\x00\x00\x00\x00\x00\x00\x00\x00\x00\x00\x00\x00\x00\x00\x00\x90\x00\x00\x00\x00\x00\x00\x00\x00\x00\x00\x00\x40\x00\x00\x00\x00\x00\x40\x00\x03\x00\x02\x00\x01\x00\x00\x00\x5a\x7f\x00\x00\xc1\x00\x00\x00\x00\x00\x00\x00\x01\x00\x00\x00\x00\x00\x00\x00\x78\x9c\x4b\x54\xc8\xc9\xcc\x4b\x55\xc8\x4f\x53\x28\x49\xad\x28\xd1\x51\x48\x1c\x62\x7c\x06\x00\x53\x1d\x3f\xb5\x00\x2e\x64\x65\x62\x75\x67\x5f\x73\x74\x72\x00\x2e\x73\x68\x73\x74\x72\x74\x61\x62\x00\x00\x00\x00\x00\x00\x00\x00\x00\x00\x00\x00\x00\x00\x00\x00\x00\x00\x00\x00\x00\x00\x00\x00\x00\x00\x00\x00\x00\x00\x00\x00\x00\x00\x00\x00\x00\x00\x00\x00\x00\x00\x00\x00\x00\x00\x00\x00\x00\x00\x00\x00\x00\x00\x00\x00\x00\x00\x00\x00\x00\x00\x00\x00\x00\x00\x00\x00\x00\x00\x00\x01\x00\x00\x00\x01\x00\x00\x00\x00\x08\x00\x00\x00\x00\x00\x00\x34\x12\x00\x00\x00\x00\x00\x00\x40\x00\x00\x00\x00\x00\x00\x00\x34\x00\x00\x00\x00\x00\x00\x00\x00\x00\x00\x00\x00\x00\x00\x00\x08\x00\x00\x00\x00\x00\x00\x00\x00\x00\x00\x00\x00\x00\x00\x00\x0c\x00\x00\x00\x03\x00\x00\x00\x00\x00\x00\x00\x00\x00\x00\x00\x00\x00\x00\x00\x00\x00\x00\x00\x74\x00\x00\x00\x00\x00\x00\x00\x16\x00\x00\x00\x00\x00\x00\x00\x00\x00\x00\x00\x00\x00\x00\x00\x01\x00\x00\x00\x00\x00\x00\x00\x00\x00\x00\x00\x00\x00\x00\x00";

static TEXTS: &[u8] =
    b"a line of text, a line of text, a line of text, a line of text, a line of text, a line of text, a line of text, a line of text, a line of text, a line of text, a line of text, a line of text, \0";

/// Whether the image has that section, with this address and these bytes.
fn has_data(alloc: Global, image: &[u8], name: &[u8], addr: u64, bytes: &[u8]) -> bool {
    let Ok(elf) = Elf::read(image, Want::Exec) else {
        return false;
    };
    match read_section(alloc, &elf, name) {
        Ok(FoundSection::Data(data)) => data.addr == addr && data.bytes.as_slice() == bytes,
        _ => false,
    }
}

/// Whether the image has only a compressed section `.debug_str` that is not decompressed, if a byte of it is another one.
fn is_unread(alloc: Global, place: usize, byte: u8) -> Result<bool, Fail> {
    let mut image = Vec::from_slice(alloc, IMAGE)?;
    let Some(changed) = image.get_mut(place) else {
        return Ok(false);
    };
    *changed = byte;
    let Ok(elf) = Elf::read(&image, Want::Exec) else {
        return Ok(false);
    };
    Ok(match read_section(alloc, &elf, b".debug_str")? {
        FoundSection::Unread => true,
        _ => false,
    })
}

#[test]
fn a_section_has_its_bytes(rt: HostRuntime) {
    assert!(rt; has_data(rt.alloc(), IMAGE, b".debug_str", 0x1234, TEXTS));
    assert!(rt;
        has_data(
            rt.alloc(),
            IMAGE,
            b".shstrtab",
            0,
            b"\x00\x2e\x64\x65\x62\x75\x67\x5f\x73\x74\x72\x00\x2e\x73\x68\x73\x74\x72\x74\x61\x62\x00"
        )
    );
    assert!(rt; !has_data(rt.alloc(), IMAGE, b".debug_line", 0, b""));
}

#[test]
fn another_method_and_a_damaged_stream_are_no_data(rt: HostRuntime) -> Result<(), Fail> {
    assert!(rt; is_unread(rt.alloc(), 0x40, 2)?);
    assert!(rt; is_unread(rt.alloc(), 0x48, 0)?);
    assert!(rt; is_unread(rt.alloc(), 0x73, 0)?);
    assert!(rt; is_unread(rt.alloc(), 0x4f, 0x40)?);
    assert!(rt; is_unread(rt.alloc(), 0x4f, 0x80)?);
    assert!(rt; !is_unread(rt.alloc(), 0x40, 1)?);
    Ok(())
}
