// How text is written.
use archive_files::{Collected, Failure, Refusal, reason_of};
use case_screens::{Reason, print_named, refusal_json};
use script_streams::{Output, Reply, write_whole};
use std::alloc::Global;

// Writes a text that is whole.
pub(crate) fn write_text<O: Output>(text: &[u8], output: &mut O) -> Result<(), Failure> {
    Ok(write_whole(output, text)?)
}

// Writes JSON, and a newline.
pub(crate) fn write_json<O: Output>(json: &str, output: &mut O) -> Result<(), Failure> {
    let mut reply = Reply::new(output);
    reply.print(json.as_bytes());
    reply.print(b"\n");
    Ok(reply.finish()?)
}

// The text; or, if JSON is asked for, an object that says why it is refused.
pub(crate) fn shown<O: Output>(
    alloc: Global,
    is_json: bool,
    shown: Result<(), Failure>,
    output: &mut O,
) -> Result<(), Failure> {
    match shown {
        Err(Failure::Refused(refusal)) if is_json => Err(refuse(alloc, refusal, output)),
        other => other,
    }
}

// Writes as JSON why something is refused. Standard error says it too.
fn refuse<O: Output>(alloc: Global, refusal: Refusal, output: &mut O) -> Failure {
    let reason = reason_of(alloc, refusal);
    let Ok(json) = refusal_json(alloc, reason.text()) else {
        return Failure::Aside(refusal);
    };
    match write_json(&json, output) {
        Ok(()) => Failure::Aside(refusal),
        Err(failure) => failure,
    }
}

// The script's reply to a line that is refused for this reason.
pub(crate) fn refusal_reply(alloc: Global, reason: &Reason<'_>) -> Result<Collected, Refusal> {
    let mut text = Collected::new(alloc);
    let mut reply = Reply::new(&mut text);
    reply.print(b"no ");
    print_named(&mut reply, reason);
    reply.print(b"\n");
    match reply.finish() {
        Ok(()) => Ok(text),
        Err(_) => Err(Refusal::OutOfMemory),
    }
}
