// Lines that are made again if they were refused memory. In a normal run none of them is refused: `scripts/fail-alloc` refuses
// each allocation in turn, and each test must pass then.
use crate::archives::{fresh, told};
use disk_model::Disk;
use intake::Archive;
use std::process::Abort;
use std::test::Fail;

// Lines of one session, and the replies to them.
struct Row {
    lines: &'static [u8],
    replies: &'static str,
}

static ROWS: [Row; 11] = [
    Row {
        lines: b"begin exec 0 a\npart 0 5\nhelloend 0\n",
        replies: "name a\nok\nok\nstored 1\nok\n",
    },
    Row {
        lines: b"pin 1\n",
        replies: "ok\n",
    },
    Row {
        lines: b"list\n",
        replies: "1 exec 5 0 0 0 pinned a\nok\n",
    },
    Row {
        lines: b"begin core 1 comm=b pid=7 sig=6 time=9\npart 1 2\nhiend 1\n",
        replies: "name core.b.7\nok\nok\nstored 2\nok\n",
    },
    Row {
        lines: b"retire keep=1\n",
        replies: "dropped 2\nok\n",
    },
    Row {
        lines: b"upgrade\n",
        replies: "ok\n",
    },
    Row {
        lines: b"label 1 x\n",
        replies: "ok\n",
    },
    Row {
        lines: b"list\n",
        replies: "1 exec 5 0 0 0 pinned a x\nok\n",
    },
    Row {
        lines: b"unpin 1\n",
        replies: "ok\n",
    },
    Row {
        lines: b"delete 1\n",
        replies: "ok\n",
    },
    Row {
        lines: b"free\n",
        replies: "free 4 of 4\nok\n",
    },
];

// The replies to these lines, or, if one of them was refused memory, to all of them made again: a stream that was refused it is
// gone. An archive whose disk in memory found none is stopped, so nothing is made again there.
fn told_again<D: Disk>(
    rt: &(impl AllocGlobal + Abort),
    archive: &mut Archive<D>,
    lines: &[u8],
) -> Result<String, Fail> {
    let text = told(rt.alloc(), archive, lines)?;
    if text.contains("no Disk\n") {
        Err("the disk had no memory")?;
    }
    if text.contains("no OutOfMemory\n") {
        return told(rt.alloc(), archive, lines);
    }
    Ok(text)
}

// Each row is answered, at once or when it is made again.
fn answers<D: Disk>(rt: &(impl AllocGlobal + Abort), archive: &mut Archive<D>) -> Result<(), Fail> {
    for row in &ROWS {
        let text = told_again(rt, archive, row.lines)?;
        assert_eq!(rt; text.as_str(), row.replies);
    }
    Ok(())
}

#[test]
fn each_line_is_answered_when_it_is_made_again(rt: HostRuntime) -> Result<(), Fail> {
    let mut archive = fresh(rt.alloc(), 1 << 30)?;
    answers(&rt, &mut archive)
}
