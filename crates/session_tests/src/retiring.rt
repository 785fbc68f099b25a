// A disk that fails while room is made before a case is stored. Rows
// of `examples/rows` show which cases are stored if no disk fails.
use crate::archives::{after, fresh_disk, named};
use disk_model::{Disk, MemDisk, OneFault, Pick};
use inspector_cli::{
    Input, LifeFault, Naming, Order, Output, ReadInput, StoreOptions, StoreOutcome, WriteOutput,
    line_stream, open_and_store,
};
use intake::Settings;
use retention::Policy;
use std::alloc::Global;
use std::process::Abort;
use std::test::Fail;

const NO_CASE_STAYS: Policy = Policy {
    keep: Some(0),
    bytes: None,
    before: None,
};

// The end of a store before which no case is to stay: nothing else is promised here, so that no proof must carry it.
fn store<I: Input, O: Output, D: Disk>(
    alloc: Global,
    disk: D,
    naming: &Naming,
    file: &mut I,
    output: &mut O,
) -> (Result<StoreOutcome, LifeFault>, D) {
    let settings = Settings { limit: 1 << 30 };
    let found = line_stream(b"begin exec 0 b", naming);
    let policy = Some(NO_CASE_STAYS);
    let options = StoreOptions {
        label: None,
        pin: false,
        fit: false,
        order: Order::Oldest,
        cut: None,
        length: None,
        digest: None,
        burst: None,
    };
    open_and_store(alloc, disk, settings, policy, found, &options, file, output)
}

// The disk of an archive with one case.
fn with_case(alloc: Global) -> Result<MemDisk, Fail> {
    let (_, disk) = after(alloc, fresh_disk(alloc)?, b"begin exec 0 a\nend 0\n")?;
    Ok(disk)
}

// The number of the last call of a disk that an opening and a retirement of its case make.
fn calls_of_retirement(rt: &(impl AllocGlobal + Abort), disk: &MemDisk) -> Result<u64, Fail> {
    let copy = OneFault::new(disk.after_crash(Pick::Nothing)?, 0);
    let (text, left) = after(rt.alloc(), copy, b"retire keep=0\n")?;
    assert_eq!(rt; text.as_str(), "dropped 1\nok\n");
    Ok(left.calls())
}

// The disk fails at the last call that makes room, so that the archive is stopped.
#[test]
fn a_disk_that_fails_where_room_is_made(rt: HostRuntime) -> Result<(), Fail> {
    let disk = with_case(rt.alloc())?;
    let calls = calls_of_retirement(&rt, &disk)?;
    let naming = named(b"core.%e.%p")?;
    let mut text = Vec::new(rt.alloc());
    let mut file = ReadInput::new(b"z".as_slice());
    let mut output = WriteOutput::new(&mut text);
    let disk = OneFault::new(disk, calls);
    let (ended, _) = store(rt.alloc(), disk, &naming, &mut file, &mut output);
    let outcome = ended?;
    assert_eq!(&rt; text.as_slice(), b"no Disk\nno Stopped\n".as_slice());
    assert_eq!(&rt; (outcome.retired_first, outcome.stored), (false, None));
    Ok(())
}
