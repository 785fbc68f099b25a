//! Registers by their names, which no line asks.
use std::process::Abort;
use std::test::Fail;
use thread_regs::Reg;

/// Each register's name with another.
static REGISTERS: [(&[u8], &[u8]); 34] = [
    (b"pc", b"pc"),
    (b"zero", b"x0"),
    (b"ra", b"x1"),
    (b"sp", b"x2"),
    (b"gp", b"x3"),
    (b"tp", b"x4"),
    (b"t0", b"x5"),
    (b"t1", b"x6"),
    (b"t2", b"x7"),
    (b"s0", b"x8"),
    (b"s1", b"x9"),
    (b"a0", b"x10"),
    (b"a1", b"x11"),
    (b"a2", b"x12"),
    (b"a3", b"x13"),
    (b"a4", b"x14"),
    (b"a5", b"x15"),
    (b"a6", b"x16"),
    (b"a7", b"x17"),
    (b"s2", b"x18"),
    (b"s3", b"x19"),
    (b"s4", b"x20"),
    (b"s5", b"x21"),
    (b"s6", b"x22"),
    (b"s7", b"x23"),
    (b"s8", b"x24"),
    (b"s9", b"x25"),
    (b"s10", b"x26"),
    (b"s11", b"x27"),
    (b"t3", b"x28"),
    (b"t4", b"x29"),
    (b"t5", b"x30"),
    (b"t6", b"x31"),
    (b"s0", b"fp"),
];

/// A register is known under both of these names, of which the first is its own.
fn is_known(rt: &impl Abort, name: &[u8], other: &[u8]) -> Result<(), Fail> {
    let register = Reg::from_name(name).ok_or("no register")?;
    let plain = Reg::from_name(other).ok_or("no register")?;
    assert_eq!(rt;
        (register.name().as_bytes(), plain.name().as_bytes()),
        (name, name)
    );
    Ok(())
}

/// Names that no register has.
static UNKNOWN: [&[u8]; 8] = [b"x32", b"", b"x", b"PC", b"x08", b"s12", b"fp0", b"t7"];

#[test]
fn registers_have_their_names(rt: HostRuntime) -> Result<(), Fail> {
    for (name, other) in &REGISTERS {
        is_known(&rt, name, other)?;
    }
    for name in &UNKNOWN {
        assert!(&rt; Reg::from_name(name).is_none());
    }
    Ok(())
}
