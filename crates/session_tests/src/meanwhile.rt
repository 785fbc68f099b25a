// An archive that others change while it is read, moment by moment, and one that is salvaged from memory.
use crate::archives::{after, disk_of};
use crate::images::with_executable;
use archive_care::CopyWish;
use archive_files::{AskFault, UnlockedFault, ask_unlocked, copy_unlocked};
use disk_model::{Disk, MemDisk};
use elf_view::sample::stack_core;
use inspector_cli::{Question, WriteOutput};
use journal_layout::Shape;
use salvage::{HeldBytes, copy_cases, find_cases};
use script_lines::{ImageQuery, Query};
use shared_disk::{Looked, ScriptedShare};
use std::alloc::Global;
use std::process::Abort;
use std::test::Fail;

// The changes of the archive from one moment to the next. The last script stores over the blocks of case 2, which is a core.
static STEPS: [&str; 5] = [
    "free\n",
    "begin core 0 comm=b pid=2\npart 0 1\nxend 0\n",
    "pin 2\n",
    "unpin 2\ndelete 2\n",
    "begin exec 0 z\npart 0 10\n0123456789end 0\nbegin exec 0 y\npart 0 1\nyend 0\n",
];

// The bytes of the disk after each step, and how many a moment has.
fn moments(alloc: Global) -> Result<(Vec<u8>, usize), Fail> {
    let mut disk = with_executable(alloc, &stack_core(alloc)?)?;
    let mut bytes = Vec::new(alloc);
    for script in &STEPS {
        let (_, left) = after(alloc, disk, script.as_bytes())?;
        disk = left;
        bytes.extend_from_slice(disk.bytes())?;
    }
    Ok((bytes, disk.length() as usize))
}

// The archive as it is looked at first, if the second look comes so many moments later.
fn looked(alloc: Global, later: usize) -> Result<Looked<ScriptedShare>, Fail> {
    let (bytes, size) = moments(alloc)?;
    let share = ScriptedShare::new(bytes, size, STEPS.len(), later).ok_or("moments")?;
    Ok(Looked::look(alloc, share)?)
}

// The bytes that a copy of case 2 gives if the second look comes so many moments later, or `None` if the case is gone.
fn copied(alloc: Global, later: usize) -> Result<Option<Vec<u8>>, Fail> {
    let looked = looked(alloc, later)?;
    let mut image = Vec::new(alloc);
    let ended = copy_unlocked(alloc, looked, 2, &mut WriteOutput::new(&mut image));
    match ended {
        Ok(()) => Ok(Some(image)),
        Err(UnlockedFault::Gone) => Ok(None),
        Err(fault) => Err(fault)?,
    }
}

#[test]
fn a_copy_is_of_the_case_or_it_is_gone(rt: HostRuntime) -> Result<(), Fail> {
    let core = stack_core(rt.alloc())?;
    for later in 0..5 {
        let image = copied(rt.alloc(), later)?;
        let wanted = if later < 3 {
            Some(core.as_slice())
        } else {
            None
        };
        assert_eq!(rt; image.as_deref(), wanted);
    }
    Ok(())
}

// The threads of case 2 if the second look comes so many moments later, or `None` if the case is gone.
fn asked(alloc: Global, later: usize) -> Result<Option<Vec<u8>>, Fail> {
    let looked = looked(alloc, later)?;
    let question = Question::Inspect {
        seq: 2,
        query: Query::Image(ImageQuery::Threads),
    };
    let mut reply = Vec::new(alloc);
    let ended = ask_unlocked(alloc, looked, question, &mut WriteOutput::new(&mut reply));
    match ended {
        Ok(_) => Ok(Some(reply)),
        Err(AskFault::Gone) => Ok(None),
        Err(fault) => Err(fault)?,
    }
}

#[test]
fn an_answer_is_of_the_case_or_it_is_gone(rt: HostRuntime) -> Result<(), Fail> {
    for later in 0..5 {
        let reply = asked(rt.alloc(), later)?;
        let wanted: Option<&[u8]> = if later < 3 {
            Some(b"0 4242 11 0x10400\nok\n")
        } else {
            None
        };
        assert_eq!(rt; reply.as_deref(), wanted);
    }
    Ok(())
}

// The text that `list` prints of the archive that is salvaged from these bytes.
fn salvaged(alloc: Global, bytes: &[u8]) -> Result<String, Fail> {
    let mut onto = disk_of(alloc, 8)?;
    salvage_onto(alloc, bytes, &mut onto)?;
    let (text, _) = after(alloc, onto, b"list\n")?;
    Ok(text)
}

// Copies the cases that are found in these bytes.
fn salvage_onto(alloc: Global, bytes: &[u8], onto: &mut MemDisk) -> Result<(), Fail> {
    let source = HeldBytes::new(bytes);
    let found = find_cases(alloc, &source)?;
    let shape = Shape {
        half_blocks: 1,
        data_blocks: 8,
    };
    let wanted = CopyWish {
        shape,
        keeps_labels: false,
    };
    copy_cases(alloc, &source, &found, onto, wanted)?;
    Ok(())
}

#[test]
fn cases_are_salvaged_from_memory(rt: HostRuntime) -> Result<(), Fail> {
    let (mut bytes, size) = moments(rt.alloc())?;
    bytes.truncate(size);
    let whole = "1 exec 4370 0 0 0 - /bin/cat\n2 core 4824 1 0 0 - core.demo.1\nok\n";
    assert_eq!(rt; salvaged(rt.alloc(), &bytes)?.as_str(), whole);
    // The kind of the first case, in the record behind the header of the first half.
    *bytes.get_mut(4096 + 32 + 12).ok_or("short")? = 7;
    let second = "2 core 4824 1 0 0 - core.demo.1\nok\n";
    assert_eq!(rt; salvaged(rt.alloc(), &bytes)?.as_str(), second);
    Ok(())
}
