//! The fields of a thread's state, each at its place. The lines about the other notes are in rows of `examples/rows`.
use core_notes::{Status, descriptors};
use elf_view::Note;
use std::test::Fail;

/// A note whose descriptor this is.
fn note_of(desc: &[u8]) -> Note<'_> {
    Note {
        name: b"CORE",
        kind: 0,
        desc,
    }
}

#[test]
fn status_fields_stand_at_their_places(rt: HostRuntime) -> Result<(), Fail> {
    let mut bytes = [0u8; 376];
    for i in 0..376 {
        bytes[i] = (i % 251) as u8;
    }
    let status = descriptors::status(&note_of(&bytes)).ok().ok_or("size")?;
    assert!(rt; has_signal(&status) && has_process(&status));
    Ok(())
}

fn has_signal(status: &Status<'_>) -> bool {
    (
        status.si_signo(),
        status.si_code(),
        status.si_errno(),
        status.pr_cursig(),
        status.pr_sigpend(),
        status.pr_sighold(),
    ) == (
        0x0302_0100,
        0x0706_0504,
        0x0b0a_0908,
        0x0d0c,
        0x1716_1514_1312_1110,
        0x1f1e_1d1c_1b1a_1918,
    )
}

fn has_process(status: &Status<'_>) -> bool {
    (
        status.pr_pid(),
        status.pr_ppid(),
        status.pr_pgrp(),
        status.pr_sid(),
        status.pr_reg(1),
        status.pr_fpvalid(),
    ) == (
        0x2322_2120,
        0x2726_2524,
        0x2b2a_2928,
        0x2f2e_2d2c,
        0x7f7e_7d7c_7b7a_7978,
        0x7877_7675,
    )
}
