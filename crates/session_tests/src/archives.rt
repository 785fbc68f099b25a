// Archives in memory, sessions over them, and scripts.
use case_journal::format;
use disk_model::{Disk, MemDisk};
use inspector_cli::{Input, Naming, Output, ReadInput, SessionFault, WriteOutput, run_session};
use intake::{Archive, Settings};
use journal_layout::Shape;
use std::alloc::Global;
use std::process::Abort;
use std::test::Fail;
use stream_names::Template;

// A formatted disk of one block in each journal half and `data_blocks` data blocks.
pub(crate) fn disk_of(alloc: Global, data_blocks: u32) -> Result<MemDisk, Fail> {
    let shape = Shape {
        half_blocks: 1,
        data_blocks,
    };
    let mut disk = MemDisk::new(alloc, shape.length()?)?;
    format(&mut disk, shape)?;
    Ok(disk)
}

// One of four data blocks.
pub(crate) fn fresh_disk(alloc: Global) -> Result<MemDisk, Fail> {
    disk_of(alloc, 4)
}

// The archive on a disk, whose images have at most `limit` bytes.
pub(crate) fn opened<D: Disk + Drop>(
    alloc: Global,
    disk: D,
    limit: u64,
) -> Result<Archive<D>, Fail> {
    match Archive::open(alloc, disk, Settings { limit }) {
        Ok(archive) => Ok(archive),
        Err((fault, _)) => Err(fault)?,
    }
}

// A fresh archive, whose images have at most `limit` bytes.
pub(crate) fn fresh(alloc: Global, limit: u64) -> Result<Archive<MemDisk>, Fail> {
    opened(alloc, fresh_disk(alloc)?, limit)
}

// Cores are named by this template.
pub(crate) fn named(template: &[u8]) -> Result<Naming, Fail> {
    Ok(Naming {
        template: Template::parse(template)?,
        uses_pid: false,
        by_build: false,
    })
}

// The end of a session: nothing else is promised here, so that no proof must carry it.
pub(crate) fn session<I: Input, O: Output, D: Disk>(
    alloc: Global,
    input: &mut I,
    output: &mut O,
    archive: &mut Archive<D>,
    naming: &Naming,
) -> Result<(), SessionFault> {
    run_session(alloc, input, output, archive, naming)
}

// The output of a session over this script, which ends well.
pub(crate) fn told<D: Disk>(
    alloc: Global,
    archive: &mut Archive<D>,
    script: &[u8],
) -> Result<String, Fail> {
    let naming = named(b"core.%e.%p")?;
    let mut text = Vec::new(alloc);
    let mut input = ReadInput::new(script);
    let mut output = WriteOutput::new(&mut text);
    session(alloc, &mut input, &mut output, archive, &naming)?;
    Ok(String::from_utf8(text)?)
}

// The output of a session over this script, over the archive on a disk, and the disk that it leaves.
pub(crate) fn after<D: Disk + Drop>(
    alloc: Global,
    disk: D,
    script: &[u8],
) -> Result<(String, D), Fail> {
    let mut archive = opened(alloc, disk, 1 << 30)?;
    let text = told(alloc, &mut archive, script)?;
    Ok((text, archive.close()))
}

// A session over this script writes this text.
pub(crate) fn states<D: Disk>(
    rt: &(impl AllocGlobal + Abort),
    archive: &mut Archive<D>,
    script: &[u8],
    wanted: &str,
) -> Result<(), Fail> {
    let text = told(rt.alloc(), archive, script)?;
    assert_eq!(rt; text.as_str(), wanted);
    Ok(())
}
