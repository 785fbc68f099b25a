//! The program: its standard streams and its status.
#![tactic(auto)]

use archive_files::print_unwritten;
use command_line::run_program;
use script_streams::{Output, Reply, WriteOutput};
use shown_progress::Meter;
use std::fs::File;
use std::io;
use std::io::IsTerminal;
use std::process::ExitCode;
use std::rt::Files;

fn main(rt: HostRuntime) -> io::Result<ExitCode> {
    // Before anything else is opened: an archive must not get the descriptor of a standard stream that is closed.
    let held = hold_standard_streams(&rt);
    let mut input = rt.stdin();
    let mut output = WriteOutput::new(rt.stdout());
    let mut errors = WriteOutput::new(rt.stderr());
    let terminal = rt.stderr();
    let shown = if terminal.is_terminal() {
        Some(WriteOutput::new(terminal))
    } else {
        None
    };
    let mut meter = Meter::new(&rt, shown);
    let status = match &held {
        Ok(_) => run_program(&rt, &mut input, &mut output, &mut errors, &mut meter),
        Err(_) => refuse_descriptors(&mut output, &mut errors),
    };
    if let Some(kind) = output.fault() {
        print_unwritten(b"standard output", kind, &mut errors);
    }
    Ok(ExitCode::from(status))
}

// Says that the process may not open as many files as it needs. Answers the status.
fn refuse_descriptors<O: Output, E: Output>(output: &mut O, errors: &mut E) -> u8 {
    print(
        errors,
        b"corekeep: the process may not open as many files as it needs\n",
    );
    print(output, b"no File\n");
    1
}

fn print<O: Output>(output: &mut O, text: &[u8]) {
    let mut reply = Reply::new(output);
    reply.print(text);
    let _ = reply.finish();
}

// Opens the null device three times. A file gets the lowest descriptor that is free, so as long as these are there, none of
// the descriptors 0, 1 and 2 is given to another file: one that was closed when the program began (the kernel starts a
// handler of core files with descriptor 0 alone) reads as empty and takes all writes.
fn hold_standard_streams<R: Files<File = File>>(rt: &R) -> io::Result<(File, File, File)> {
    let first = open_null(rt)?;
    let second = open_null(rt)?;
    let third = open_null(rt)?;
    Ok((first, second, third))
}

fn open_null<R: Files<File = File>>(rt: &R) -> io::Result<File> {
    File::options().read(true).write(true).open(rt, "/dev/null")
}
