// The streams that lines begin.
ghost use Rattle.std.specs.Prelude.{◌≡◌, Ok};
ghost use Rattle.script_lines.specs.Commands.{asked_by};
ghost use Rattle.script_lines.specs.Said.{said};
ghost use Rattle.inspector_cli.specs.Reply.{Begins};
ghost use Rattle.inspector_cli.specs.Storing.{line_stream};
ghost use Rattle.stream_names.specs.Commands.{stream_found};
ghost use Rattle.script_streams.specs.Replies.{PrintsReply, printing};

use archive_replies::print_begun;
use disk_model::Disk;
use intake::Archive;
use script_lines::{Command, Request, parse_text};
use script_streams::{Output, Reply, print_no};
use stream_names::{Naming, NewStream, copied, core_stream, exec_stream};

// Answers a line that begins this stream, or whose name has this fault. Returns whether the stream has begun.
pub(crate) fn answer_begin<O: Output, D: Disk>(
    slot: u8,
    found: Result<NewStream, &'static [u8]>,
    reply: &mut Reply<'_, O>,
    archive: &mut Archive<D>,
) -> bool
    ensures { PrintsReply (printing O.Output reply.old reply.new) (λ text. Begins D.Disk archive.old slot (stream_found found.entry) text archive.new result) }
{
    match found {
        Ok(stream) => begin_stream(slot, stream, reply, archive),
        Err(reason) => {
            print_no(reply, reason);
            false
        }
    }
}

// Begins a stream, and prints its name. Returns whether it has begun.
fn begin_stream<O: Output, D: Disk>(
    slot: u8,
    stream: NewStream,
    reply: &mut Reply<'_, O>,
    archive: &mut Archive<D>,
) -> bool
    ensures { PrintsReply (printing O.Output reply.old reply.new) (λ text. Begins D.Disk archive.old slot (stream_found (Ok stream)) text archive.new result) }
{
    let NewStream {
        kind,
        name,
        pid,
        signal,
        time,
    } = stream;
    let shown = copied(name.as_slice());
    let outcome = archive.begin(slot, kind, name, pid, signal, time);
    let is_begun = outcome.is_ok();
    print_begun(reply, shown.as_slice(), outcome);
    is_begun
}

/// The stream that a line begins in slot 0, or why it begins none there, as a reply has it: the fault of its name, or
/// `BadLine`, and for a line of more than 1,024 bytes `LineTooLong`.
pub fn line_stream(line: &[u8], naming: &Naming) -> Result<NewStream, &'static [u8]>
    ensures { stream_found result ≡ line_stream naming.now (said line.now) }
{
    match parse_text(line) {
        Command::Plain(request) => asked_stream(request, naming),
        _ => Err(b"BadLine"),
    }
}

fn asked_stream(request: Request<'_>, naming: &Naming) -> Result<NewStream, &'static [u8]>
    ensures { stream_found result ≡ line_stream naming.now (asked_by request.entry) }
{
    match request {
        Request::BeginExec { slot, name } => {
            if slot != 0 {
                return Err(b"BadLine");
            }
            exec_stream(&name)
        }
        Request::BeginCore { slot, process } => {
            if slot != 0 {
                return Err(b"BadLine");
            }
            core_stream(&process, naming)
        }
        Request::LineTooLong => Err(b"LineTooLong"),
        _ => Err(b"BadLine"),
    }
}
