// The command.
use crate::metrics_text::print_metrics;
use archive_files::{ArchivePath, Collected, Failure, Refusal, take_look};
use case_info::facts_over;
use handler_files::{Counts, counts_path, read_counts};
use script_streams::{Output, Reply, write_whole};
use std::fs::File;
use std::rt::Files;

/// Prints the metrics of an archive, from one look at it, and the counts of its handler, if their file is there and in order. It waits for nobody: an archive that can't be looked at now is refused as `Busy`.
///
/// # Errors
///
/// The refusals of `take_look` of `archive_files` and of an opening, and `OutOfMemory`: nothing is printed. `WriteFailed` if the text could
/// not be written.
pub fn info_metrics<R: AllocGlobal + Files<File = File>, O: Output>(
    rt: &R,
    path: &str,
    output: &mut O,
) -> Result<(), Failure> {
    let alloc = rt.alloc();
    let looked = take_look(rt, ArchivePath { path, waits: false })?;
    let facts = facts_over(alloc, looked.unlocked(Vec::new(alloc)))?;
    let mut text = Collected::new(alloc);
    let mut reply = Reply::new(&mut text);
    print_metrics(&mut reply, path.as_bytes(), &facts, counts_beside(rt, path));
    match reply.finish() {
        Ok(()) => Ok(write_whole(output, text.text())?),
        Err(_) => Err(Failure::Refused(Refusal::OutOfMemory)),
    }
}

// The counts of the handler of an archive, if their file is there and in order.
fn counts_beside<R: AllocGlobal + Files<File = File>>(rt: &R, archive: &str) -> Option<Counts> {
    let path = counts_path(rt.alloc(), archive).ok()?;
    read_counts(rt, rt.alloc(), path.as_str()).ok()?
}
