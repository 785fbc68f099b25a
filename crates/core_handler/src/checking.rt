// The effect of a handler's configuration, printed for a person.
use crate::config_file::Document;
use crate::handling::{HANDLER_LIMIT, HANDLER_TEMPLATE, HandleWords, UNNAMED, log_of};
use crate::labels::escaped_label;
use crate::log::{KERNEL_LOG, Log, LogFault};
use crate::outcome_lines::words_of;
use crate::spool_paths::path_in;
use crate::{Burst, Config};
use archive_files::{
    ArchivePath, Collected, Failure, Refusal, fault_found, note_file_system, note_gap, reason_of,
    shape_on, shared_folder, take_look,
};
use command_words::Context;
use diagnostics::Nobody;
use disk_model::Disk;
use handler_files::{FolderFault, begin_part, folder_fault};
use intake::{Archive, Settings};
use journal_layout::Shape;
use memchr::memmem;
use script_streams::{Output, Reply};
use std::alloc::Global;
use std::fs;
use std::fs::File;
use std::rt::Files;
use std::time::Clock;
use stream_names::Template;
use whole_files::{PartFile, remove};

// The bytes of a block.
const BLOCK: u128 = 4096;

// The file that says which program the kernel starts for a core, and with which words (core(5)).
const PATTERN: &str = "/proc/sys/kernel/core_pattern";

// Prints the fault of the file as a whole, the values that hold, a line for each key, and then each fault. The last lines say whether the
// archive has room for all that the configuration keeps. Anything that is not in order is a refusal.
pub(crate) fn check<R: AllocGlobal + Files<File = File> + Clock, O: Output>(
    rt: &R,
    words: &HandleWords<'_>,
    document: &Document,
    output: &mut O,
    note: &mut Collected,
) -> Result<(), Failure> {
    let config = Config::of(&document.value);
    let mut reply = Reply::new(output);
    let is_read = !print_unread(rt, &mut reply, words, document);
    print_config(&mut reply, &config, words.archive);
    let log = log_of(&config, words.archive);
    print_path(rt, &mut reply, b"configuration ", Some(words.path()));
    print_path(rt, &mut reply, b"archive ", log.archive);
    print_file_system(rt, &mut reply, log.archive);
    print_path(rt, &mut reply, b"log ", config.log);
    print_path(rt, &mut reply, b"spool ", config.spool);
    print_fair(&mut reply, &config);
    print_pattern(rt, &mut reply, &config);
    let are_known = print_faults(rt, &mut reply, words, document);
    let are_taken = print_values(rt, &mut reply, &config, log);
    let is_large = print_size(rt, &mut reply, &config, words.archive);
    reply.finish()?;
    if let Some(path) = log.archive {
        note_gap(rt, ArchivePath { path, waits: true }, note);
    }
    if is_read && are_known && are_taken && is_large {
        Ok(())
    } else {
        Err(Failure::Told)
    }
}

// Prints the fault of the file as a whole: then no line of it holds. Returns whether there is one.
fn print_unread<R: AllocGlobal, O: Output>(
    rt: &R,
    reply: &mut Reply<'_, O>,
    words: &HandleWords<'_>,
    document: &Document,
) -> bool {
    let Some(line) = document.trouble_line(rt.alloc(), words.path()) else {
        return false;
    };
    reply.print(b"fault ");
    reply.print(line.text());
    reply.print(b"\n");
    true
}

// A line for each key.
fn print_config<O: Output>(reply: &mut Reply<'_, O>, config: &Config<'_>, archive: Option<&str>) {
    print_text_line(reply, b"archive ", config.archive.or(archive));
    print_number_line(reply, b"keep ", config.keep);
    print_number_line(reply, b"bytes ", config.bytes);
    print_number_line(reply, b"before ", config.before);
    print_number_line(
        reply,
        b"limit ",
        Some(config.limit.unwrap_or(HANDLER_LIMIT)),
    );
    print_flag_line(reply, b"fit ", config.fit);
    print_flag_line(reply, b"fair ", config.fair);
    print_flag_line(reply, b"cut ", config.cut);
    print_burst_line(reply, config.burst);
    print_flag_line(reply, b"obey-limit ", config.obeys_limit);
    let template = config.template.unwrap_or(HANDLER_TEMPLATE);
    print_text_line(reply, b"template ", Some(template));
    print_flag_line(reply, b"uses-pid ", config.uses_pid);
    print_flag_line(reply, b"no-wait ", config.no_wait);
    print_text_line(reply, b"label ", config.label);
    print_text_line(reply, b"log ", Some(config.log.unwrap_or(KERNEL_LOG)));
    if config.stall.is_some() {
        print_number_line(reply, b"stall ", config.stall);
    }
    if config.spool.is_some() || config.spool_bytes.is_some() {
        print_text_line(reply, b"spool ", config.spool);
        print_number_line(reply, b"spool-bytes ", config.spool_bytes);
    }
}

fn print_text_line<O: Output>(reply: &mut Reply<'_, O>, key: &[u8], text: Option<&str>) {
    reply.print(key);
    reply.print_text(text.unwrap_or("").as_bytes());
    reply.print(b"\n");
}

fn print_number_line<O: Output>(reply: &mut Reply<'_, O>, key: &[u8], number: Option<u64>) {
    reply.print(key);
    match number {
        Some(number) => reply.print_decimal(u128::from(number)),
        None => reply.print(b"-"),
    }
    reply.print(b"\n");
}

fn print_burst_line<O: Output>(reply: &mut Reply<'_, O>, burst: Option<Burst>) {
    reply.print(b"burst ");
    match burst {
        Some(burst) => {
            reply.print_decimal(u128::from(burst.most));
            reply.print(b" in ");
            reply.print_decimal(u128::from(burst.seconds));
        }
        None => reply.print(b"-"),
    }
    reply.print(b"\n");
}

fn print_flag_line<O: Output>(reply: &mut Reply<'_, O>, key: &[u8], flag: bool) {
    reply.print(key);
    reply.print(if flag { b"true\n" } else { b"false\n" });
}

// Prints a note on a path that the kernel's handler finds in another directory
// than the person who asks, and on one that others may give to another file.
fn print_path<R: AllocGlobal + Files<File = File>, O: Output>(
    rt: &R,
    reply: &mut Reply<'_, O>,
    key: &[u8],
    path: Option<&str>,
) {
    let Some(path) = path else {
        return;
    };
    if path.is_empty() {
        return;
    }
    if !path.starts_with('/') {
        print_note(reply, key, path);
        reply.print(b"the kernel starts its handler in /\n");
    }
    if let Some(folder) = shared_folder(rt, path) {
        print_note(reply, key, path);
        reply.print(b"others may write a directory on its path, ");
        reply.print_text(folder.as_bytes());
        reply.print(b"\n");
    }
}

// Prints the notes on the file system that the archive lies on.
fn print_file_system<R: AllocGlobal + Files<File = File>, O: Output>(
    rt: &R,
    reply: &mut Reply<'_, O>,
    archive: Option<&str>,
) {
    let Some(path) = archive else {
        return;
    };
    let mut note = Collected::new(rt.alloc());
    note_file_system(rt, path, &mut note);
    if note.text().is_empty() {
        return;
    }
    print_note(reply, b"archive ", path);
    reply.print(b"file system ");
    reply.print(note.text());
    reply.print(b"\n");
}

// Prints a note if `fair` does nothing, or if names have no user.
fn print_fair<O: Output>(reply: &mut Reply<'_, O>, config: &Config<'_>) {
    if !config.fair {
        return;
    }
    if !config.fit {
        reply.print(b"note fair: no core goes without fit = true\n");
    }
    let template = config.template.unwrap_or(HANDLER_TEMPLATE);
    if !template.starts_with("core.%u.") {
        reply.print(
            b"note fair: the template does not begin with core.%u., so all cores are of one user\n",
        );
    }
}

// Prints a note for each word that the names of cores need and the kernel's pattern does not give. A pattern that starts another program says
// nothing of this one.
fn print_pattern<R: AllocGlobal + Files<File = File>, O: Output>(
    rt: &R,
    reply: &mut Reply<'_, O>,
    config: &Config<'_>,
) {
    let Ok(pattern) = fs::read(rt, PATTERN) else {
        return;
    };
    if !pattern.starts_with(b"|") || memmem::find(&pattern, b" handle ").is_none() {
        return;
    }
    let template = config.template.unwrap_or(HANDLER_TEMPLATE);
    if template.contains("%u") && memmem::find(&pattern, b" uid=").is_none() {
        reply.print(
            b"note core_pattern: it has no uid=%u, so each core is named as if user 0 had made it\n",
        );
    }
    if template.contains("%h") && memmem::find(&pattern, b" host=").is_none() {
        reply.print(b"note core_pattern: it has no host=%h, so the names of cores have no host\n");
    }
}

// Begins a note on a path.
fn print_note<O: Output>(reply: &mut Reply<'_, O>, key: &[u8], path: &str) {
    reply.print(b"note ");
    reply.print(key);
    reply.print_text(path.as_bytes());
    reply.print(b": ");
}

// Prints each fault. Returns whether there are no faults.
fn print_faults<R: AllocGlobal, O: Output>(
    rt: &R,
    reply: &mut Reply<'_, O>,
    words: &HandleWords<'_>,
    document: &Document,
) -> bool {
    let Ok(faults) = document.faults(rt.alloc(), words.path()) else {
        reply.print(b"no OutOfMemory\n");
        return false;
    };
    for fault in &faults {
        reply.print(b"fault ");
        reply.print(fault.text());
        reply.print(b"\n");
    }
    for pair in &words.left_out {
        reply.print(b"fault ");
        reply.print_text(pair.as_bytes());
        reply.print(b": is no pair of the grammar\n");
    }
    if let Some(length) = words.faulty_length {
        reply.print(b"fault ");
        reply.print_text(length.as_bytes());
        reply.print(b": is no length\n");
    }
    faults.is_empty() && words.left_out.is_empty() && words.faulty_length.is_none()
}

// Prints the values that would be left out when a core comes, though
// they are of the right kind. Returns whether there are no such values.
fn print_values<R: AllocGlobal + Files<File = File>, O: Output>(
    rt: &R,
    reply: &mut Reply<'_, O>,
    config: &Config<'_>,
    log: Log<'_>,
) -> bool {
    let template = config.template.unwrap_or(HANDLER_TEMPLATE);
    let is_template = Template::parse(template.as_bytes()).is_ok();
    if !is_template {
        reply.print(b"fault template: it has over 127 bytes, or begins with |\n");
    }
    let is_label = match config.label {
        Some(label) => escaped_label(rt.alloc(), label).is_ok(),
        None => true,
    };
    if !is_label {
        reply.print(b"fault label: it has over 64 bytes\n");
    }
    let is_log = print_log(rt, reply, log);
    let is_spool = print_spool(rt, reply, config);
    is_template && is_label && is_log && is_spool
}

// Prints a fault if no core can go to the spool, or if others may enter it. Returns whether there is no fault.
fn print_spool<R: AllocGlobal + Files<File = File>, O: Output>(
    rt: &R,
    reply: &mut Reply<'_, O>,
    config: &Config<'_>,
) -> bool {
    let Some(folder) = config.spool else {
        return true;
    };
    let Some(why) = spool_trouble(rt, folder) else {
        return true;
    };
    reply.print(b"fault spool: ");
    reply.print_text(folder.as_bytes());
    reply.print(why);
    reply.print(b"\n");
    false
}

// Why a directory can't be a spool, in words. Nothing if it can.
fn spool_trouble<R: AllocGlobal + Files<File = File>>(
    rt: &R,
    folder: &str,
) -> Option<&'static [u8]> {
    match folder_fault(rt, folder) {
        Some(FolderFault::Missing) => Some(b" is not there: make it by mkdir -m 700"),
        Some(FolderFault::NoFolder) => Some(b" is not a directory"),
        Some(FolderFault::Shared) => Some(
            b": others may enter it: chmod 700 takes that right away",
        ),
        Some(FolderFault::Foreign) => Some(b" belongs to another user"),
        None if takes_files(rt, folder) => None,
        None => Some(b" can't be written"),
    }
}

// Whether a file can be made in a directory. It is removed then.
fn takes_files<R: AllocGlobal + Files<File = File>>(rt: &R, folder: &str) -> bool {
    let Ok(path) = path_in(rt.alloc(), folder, "check") else {
        return false;
    };
    let Ok(file) = PartFile::new(rt.alloc(), rt, path.as_str()) else {
        return false;
    };
    let mut file = file;
    if begin_part(&mut file).is_err() {
        return false;
    }
    remove(&mut file);
    true
}

// Prints a fault if a log takes no line. Returns whether it takes one. A missing log is made, as with the first line.
fn print_log<R: Files<File = File>, O: Output>(
    rt: &R,
    reply: &mut Reply<'_, O>,
    log: Log<'_>,
) -> bool {
    if log.path.is_empty() {
        return true;
    }
    let Err(fault) = log.open(rt) else {
        return true;
    };
    reply.print(b"fault log: ");
    reply.print_text(log.path.as_bytes());
    reply.print(match fault {
        LogFault::Closed => b" can't be written\n",
        LogFault::Special => b" is a link, or no regular file: no line is written\n",
        LogFault::Archive => b" is the archive: no line is written\n",
    });
    false
}

// Prints whether the archive has room for all that the configuration keeps. Returns whether it has.
fn print_size<R: AllocGlobal + Files<File = File> + Clock, O: Output>(
    rt: &R,
    reply: &mut Reply<'_, O>,
    config: &Config<'_>,
    archive: Option<&str>,
) -> bool {
    let Some(path) = config.archive.or(archive) else {
        reply.print(b"fault ");
        reply.print(UNNAMED);
        reply.print(b"\n");
        return false;
    };
    let place = ArchivePath { path, waits: true };
    match take_look(rt, place) {
        Ok(looked) => {
            let front = looked.unlocked(Vec::new(rt.alloc()));
            let is_kept = print_archive(rt.alloc(), reply, config, front);
            is_kept && !print_hidden(rt, reply, place)
        }
        Err(refusal) => {
            print_refused(rt.alloc(), reply, b"can't be opened", refusal);
            false
        }
    }
}

// Prints the fault of a gate that may hide records of an archive that opens. Returns whether there is one.
fn print_hidden<R: AllocGlobal + Files<File = File> + Clock, O: Output>(
    rt: &R,
    reply: &mut Reply<'_, O>,
    place: ArchivePath<'_>,
) -> bool {
    let Some(fault) = fault_found(rt, place, &mut Nobody) else {
        return false;
    };
    print_refused(rt.alloc(), reply, b"may hide cases", Refusal::Open(fault));
    true
}

// Prints whether the archive on a disk is large enough, and whether it opens. Returns whether both hold.
fn print_archive<D: Disk + Drop, O: Output>(
    alloc: Global,
    reply: &mut Reply<'_, O>,
    config: &Config<'_>,
    disk: D,
) -> bool {
    let mut disk = disk;
    let shape = match shape_on(&mut disk) {
        Ok(Some(shape)) => shape,
        Ok(None) => {
            reply.print(b"fault the file is no archive\n");
            return false;
        }
        Err(_) => {
            print_refused(alloc, reply, b"can't be read", Refusal::Disk);
            return false;
        }
    };
    let is_large = print_blocks(reply, config, shape);
    match Archive::open(alloc, disk, Settings { limit: 0 }) {
        Ok(_) => is_large,
        Err((fault, _)) => {
            print_refused(alloc, reply, b"is refused", Refusal::Open(fault));
            false
        }
    }
}

// Prints that the archive has a fault, and which.
fn print_refused<O: Output>(
    alloc: Global,
    reply: &mut Reply<'_, O>,
    what: &[u8],
    refusal: Refusal,
) {
    reply.print(b"fault the archive ");
    reply.print(what);
    reply.print(b": ");
    let reason = reason_of(alloc, refusal);
    let words = words_of(alloc, Context::Handling, Some(refusal), reason.text(), None);
    reply.print(reason.text());
    if !words.text().is_empty() {
        reply.print(b": ");
        reply.print(words.text());
    }
    reply.print(b"\n");
}

// Prints how many blocks are needed, and how many the archive has.
fn print_blocks<O: Output>(reply: &mut Reply<'_, O>, config: &Config<'_>, shape: Shape) -> bool {
    let Some(wanted) = blocks_wanted(config) else {
        reply.print(b"fault neither fit nor keep is set: a full archive refuses each new core\n");
        return false;
    };
    let is_large = wanted <= u128::from(shape.data_blocks);
    reply.print(if is_large {
        b"blocks "
    } else {
        b"fault too small: blocks "
    });
    reply.print_decimal(wanted);
    reply.print(b" wanted, ");
    reply.print_decimal(u128::from(shape.data_blocks));
    reply.print(if is_large {
        b" there\n"
    } else {
        b" there: set a lower limit, or make it larger (corekeep resize)\n"
    });
    is_large
}

// How many data blocks are needed to keep as many cores as a configuration says, with one more core of the limit. An image takes whole
// blocks. If older cases make room, one core of the limit is enough.
fn blocks_wanted(config: &Config<'_>) -> Option<u128> {
    if config.fit {
        return Some(u128::from(config.limit.unwrap_or(HANDLER_LIMIT)).div_ceil(BLOCK));
    }
    let keep = u128::from(config.keep?);
    let limit = u128::from(config.limit.unwrap_or(HANDLER_LIMIT));
    match config.bytes {
        Some(bytes) => Some((u128::from(bytes) + (BLOCK - 1) * keep + limit).div_ceil(BLOCK)),
        None => Some((keep + 1) * limit.div_ceil(BLOCK)),
    }
}
