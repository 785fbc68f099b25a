// The reply to `files`.
ghost use Rattle.std.specs.Prelude.{◌≡◌, is_ok};
ghost use Rattle.std.specs.List.{flat_map};
ghost use Rattle.std.specs.Option.{option_map};
ghost use Rattle.core_notes.specs.FileWords.{file_view, files_bytes, files_left};
ghost use Rattle.script_streams.specs.Replies.{PrintsText, printing, reply_of};
ghost use Rattle.image_replies.specs.Lines.{if_there};
ghost use Rattle.image_replies.specs.Files as spec;

use crate::core_image::CoreImage;
use crate::faults::print_core_fault;
use crate::words::print_address;
use core_notes::{FileMap, FileMaps, Files};
use script_streams::{Output, Reply, print_no, print_ok};

/// Prints the mapped files of the process of a core, or the first of these that holds: the core or a typed note is bad,
/// it has no NT_FILE (`no Missing`). Returns whether they are printed; if not, the reply is `no REASON`.
pub fn print_files<O: Output>(reply: &mut Reply<'_, O>, image: &[u8]) -> bool
    ensures states { PrintsText (printing O.Output reply.old reply.new) (reply_of (spec.files_answer image.now)) }
    ensures done { result ≡ is_ok (spec.files_answer image.now) }
{
    match CoreImage::read(image) {
        Ok(core) => print_found(reply, core.notes().files()),
        Err(fault) => {
            print_core_fault(reply, fault);
            false
        }
    }
}

/// Prints mapped files, if they are there. Returns whether they are.
fn print_found<O: Output>(reply: &mut Reply<'_, O>, files: Option<Files<'_>>) -> bool
    ensures states { PrintsText (printing O.Output reply.old reply.new) (reply_of (if_there (option_map files_bytes files.entry) spec.file_lines)) }
    ensures done { result ≡ is_ok (if_there (option_map files_bytes files.entry) spec.file_lines) }
{
    match files {
        Some(files) => {
            print_file_lines(reply, files.maps());
            print_ok(reply);
            true
        }
        None => {
            print_no(reply, b"Missing");
            false
        }
    }
}

/// Prints a line for each mapped file.
fn print_file_lines<O: Output>(reply: &mut Reply<'_, O>, maps: FileMaps<'_>)
    ensures { PrintsText (printing O.Output reply.old reply.new) (flat_map spec.file_line (files_left maps.entry)) }
{
    let mut rest = maps;
    while let Some(map) = rest.next() {
        print_file_line(reply, &map);
    }
}

fn print_file_line<O: Output>(reply: &mut Reply<'_, O>, map: &FileMap<'_>)
    ensures { PrintsText (printing O.Output reply.old reply.new) (spec.file_line (file_view map.now)) }
{
    print_address(reply, map.start);
    print_address(reply, map.past);
    print_address(reply, map.offset);
    reply.print_text(map.name);
    reply.print(b"\n");
}
