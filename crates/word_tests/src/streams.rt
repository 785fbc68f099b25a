//! Lines and parts in pieces of any size, and streams that fail.
ghost use Rattle.std.specs.Prelude.{◌<◌, length};

use script_streams::{
    Input, KeptLine, LineEnding, Output, ReadInput, ReadStop, Reply, ScriptBuffer, StreamFault,
    WriteOutput,
};
use std::process::Abort;
use std::test::Fail;

// An input of which each read gives at most `size` bytes. The read of a place past the end fails or ends the input.
#[derive(Drop)]
struct Pieces<'a> {
    rest: &'a [u8],
    size: usize,
    fails: bool,
    failures: u64,
}

impl Input for Pieces<'_> {
    ghost use Rattle.std.specs.Prelude.{None};

    ghost remaining = { λ _. None };

    ghost failures = { λ s. s.failures };

    fn read(&mut self, into: &mut [u8]) -> Result<usize, StreamFault> {
        let count = self.rest.len().min(self.size).min(into.len());
        if count == 0 && self.fails {
            self.failures = self.failures.saturating_add(1);
            return Err(StreamFault);
        }
        let (front, rest) = self.rest.split_at(count);
        into[..count].copy_from_slice(front);
        self.rest = rest;
        Ok(count)
    }
}

// An output that takes one byte at a time, and fails after `left` of them.
#[derive(Drop)]
struct Narrow {
    left: u8,
    last: u8,
    failures: u64,
}

impl Output for Narrow {
    ghost use Rattle.std.specs.Prelude.{None};

    ghost taken = { λ _. None };

    ghost failures = { λ s. s.failures };

    fn write(&mut self, from: &[u8]) -> Result<usize, StreamFault> {
        if self.left == 0 {
            self.failures = self.failures.saturating_add(1);
            return Err(StreamFault);
        }
        self.left -= 1;
        self.last = from[0];
        Ok(1)
    }
}

// A script that is read, and the line that was kept last.
#[derive(Drop)]
struct Script<'a> {
    input: Pieces<'a>,
    buffer: ScriptBuffer,
    line: KeptLine,
    output: Narrow,
}

// The next line, which is kept.
fn next_line(script: &mut Script<'_>) -> Result<LineEnding, ReadStop> {
    print_and_read(script, b"")
}

// The next bytes of a part, and how many there are.
fn next_bytes(script: &mut Script<'_>, into: &mut [u8]) -> Result<usize, ReadStop>
    requires { 0 < length into.old }
{
    let mut reply = Reply::new(&mut script.output);
    script.buffer.next_raw(&mut script.input, into, &mut reply)
}

// The next line ends so, and has this text.
fn line_is(
    rt: &impl Abort,
    script: &mut Script<'_>,
    ending: LineEnding,
    text: &[u8],
) -> Result<(), ReadStop> {
    assert_eq!(rt; next_line(script)?, ending);
    assert_eq!(rt; script.line.text(), text);
    Ok(())
}

// The next two bytes of a part are these.
fn part_is(rt: &impl Abort, script: &mut Script<'_>, bytes: &[u8]) -> Result<(), ReadStop> {
    let mut part = [0u8; 2];
    let mut at = next_bytes(script, &mut part)?;
    if at == 1 {
        at = at.saturating_add(next_bytes(script, &mut part[1..])?);
    }
    assert_eq!(rt; at, 2);
    assert_eq!(rt; part.as_slice(), bytes);
    Ok(())
}

fn script_of(rest: &[u8], size: usize, fails: bool) -> Script<'_> {
    Script {
        input: Pieces {
            rest,
            size,
            fails,
            failures: 0,
        },
        buffer: ScriptBuffer::new(),
        line: KeptLine::new(),
        output: takes_at_most(0),
    }
}

// An output that takes `left` bytes.
fn takes_at_most(left: u8) -> Narrow {
    Narrow {
        left,
        last: 0,
        failures: 0,
    }
}

// Lines, a part, and a last line with no newline, from reads of `size` bytes.
fn reads_all(rt: &impl Abort, size: usize) -> Result<(), ReadStop> {
    let mut script = script_of(b"part 0 2\nhelist\n\nend", size, false);
    line_is(rt, &mut script, LineEnding::Newline, b"part 0 2")?;
    part_is(rt, &mut script, b"he")?;
    line_is(rt, &mut script, LineEnding::Newline, b"list")?;
    line_is(rt, &mut script, LineEnding::Newline, b"")?;
    assert!(rt; script.line.is_blank_or_comment());
    line_is(rt, &mut script, LineEnding::EndOfInput, b"end")?;
    line_is(rt, &mut script, LineEnding::NothingLeft, b"")
}

#[test]
fn lines_and_parts(rt: HostRuntime) -> Result<(), Fail> {
    reads_all(&rt, 1)?;
    reads_all(&rt, 4096)?;
    Ok(())
}

// How many bytes of a part of four come next.
fn next_part(script: &mut Script<'_>) -> Result<usize, ReadStop> {
    let mut part = [0u8; 4];
    next_bytes(script, &mut part)
}

#[test]
fn input_that_fails(rt: HostRuntime) -> Result<(), Fail> {
    let mut script = script_of(b"list\npart", 2, true);
    line_is(&rt, &mut script, LineEnding::Newline, b"list")?;
    assert_eq!(rt; next_line(&mut script), Err(ReadStop::ReadFailed));
    assert_eq!(rt; next_part(&mut script), Err(ReadStop::ReadFailed));
    assert_eq!(rt; script.input.failures, 2);
    Ok(())
}

// Of 2^40 reads three are left, each of which gives one line; the fourth line is not asked for.
#[test]
fn reads_are_bounded(rt: HostRuntime) -> Result<(), Fail> {
    let mut script = script_of(b"a\nb\nc\nd\n", 2, false);
    script.buffer = ScriptBuffer::after_reads((1 << 40) - 3);
    line_is(&rt, &mut script, LineEnding::Newline, b"a")?;
    line_is(&rt, &mut script, LineEnding::Newline, b"b")?;
    line_is(&rt, &mut script, LineEnding::Newline, b"c")?;
    assert_eq!(rt; next_line(&mut script), Err(ReadStop::TooManyReads));
    assert_eq!(rt; next_part(&mut script), Err(ReadStop::TooManyReads));
    assert_eq!(rt; script.input.rest, b"d\n".as_slice());
    Ok(())
}

#[test]
fn output_that_fails(rt: HostRuntime) -> Result<(), Fail> {
    let mut output = Narrow {
        left: 3,
        last: 0,
        failures: 0,
    };
    let mut reply = Reply::new(&mut output);
    reply.print(b"ok\n");
    assert_eq!(rt; reply.finish(), Ok(()));
    reply.print(b"no");
    assert_eq!(rt; reply.finish(), Err(StreamFault));
    reply.print(b"more");
    assert_eq!(rt; reply.finish(), Err(StreamFault));
    assert_eq!(rt; (output.last, output.failures), (b'\n', 1));
    Ok(())
}

// The printed forms of numbers and bytes.
fn print_values<O: Output>(reply: &mut Reply<'_, O>) {
    reply.print_hexadecimal(16);
    reply.print_decimal(4);
    reply.print_signed(-1);
    reply.print_hex(b"\x0a\xbb");
}

// Prints a text to the script's output, and drops the reply.
fn print(script: &mut Script<'_>, text: &[u8]) {
    let mut reply = Reply::new(&mut script.output);
    reply.print(text);
}

// Prints a text to the script's output, and reads the next line.
fn print_and_read(script: &mut Script<'_>, text: &[u8]) -> Result<LineEnding, ReadStop> {
    let mut reply = Reply::new(&mut script.output);
    reply.print(text);
    let line = &mut script.line;
    script.buffer.next_line(&mut script.input, line, &mut reply)
}

#[test]
fn replies_come_before_more_is_read(rt: HostRuntime) -> Result<(), Fail> {
    let mut script = script_of(b"list\nfree\n", 5, false);
    script.output = takes_at_most(3);
    next_line(&mut script)?;
    print(&mut script, b"ok\n");
    let before = script.output.left;
    print_and_read(&mut script, b"ok\n")?;
    assert_eq!(rt;
        (before, script.output.left, script.output.last),
        (3, 0, b'\n')
    );
    Ok(())
}

#[test]
fn a_slice_is_an_input(rt: HostRuntime) -> Result<(), Fail> {
    let mut input = ReadInput::new(b"free".as_slice());
    let mut buffer = ScriptBuffer::new();
    let mut line = KeptLine::new();
    let mut output = takes_at_most(0);
    let mut reply = Reply::new(&mut output);
    let ending = buffer.next_line(&mut input, &mut line, &mut reply)?;
    assert_eq!(rt; ending, LineEnding::EndOfInput);
    assert_eq!(rt; line.text(), b"free".as_slice());
    Ok(())
}

#[test]
fn a_vector_is_an_output(rt: HostRuntime) {
    let mut output = WriteOutput::new(Vec::new(rt.alloc()));
    let mut reply = Reply::new(&mut output);
    reply.print(b"free");
    for text in [b"".as_slice(), b"-", b"a b"] {
        reply.print_text(text);
    }
    print_values(&mut reply);
    assert_eq!(rt; reply.finish(), Ok(()));
    let written = output.into_inner();
    assert_eq!(rt;
        written.as_slice(),
        b"free-\\x2da\\x20b0x104-10abb".as_slice()
    );
}

// A writer that takes no byte fails, and a reader that answers `Err` too.
#[derive(Drop)]
struct Shut;

impl std::io::Read for Shut {
    fn read(&mut self, _buf: &mut [u8]) -> std::io::Result<usize> {
        Err(std::io::Error::from(std::io::ErrorKind::Interrupted))
    }
}

impl std::io::Write for Shut {
    fn write(&mut self, _buf: &[u8]) -> std::io::Result<usize> {
        Ok(0)
    }

    fn flush(&mut self) -> std::io::Result<()> {
        Ok(())
    }
}

#[test]
fn shut_streams(rt: HostRuntime) -> Result<(), Fail> {
    let mut byte = [0u8; 1];
    assert_eq!(rt; ReadInput::new(Shut).read(&mut byte), Err(StreamFault));
    assert_eq!(rt; WriteOutput::new(Shut).write(&byte), Err(StreamFault));
    Ok(())
}
