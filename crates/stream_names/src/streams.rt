// The streams that lines begin.
ghost use Rattle.std.specs.Prelude.{◌≡◌, MatchResult, Ok, Err};
ghost use Rattle.script_lines.specs.Commands.{name_text, process_of, process_told};
ghost use Rattle.stream_names.specs.Commands.{stream_found};
ghost use Rattle.stream_names.specs.Streams.{exec_stream, core_name, core_stream, name_reason};

use crate::facts::Facts;
use crate::names::{NewStream, copied, has_nul};
use crate::naming::Naming;
use crate::template::NameFault;
use journal_layout::{Kind, Name};
use script_lines::{NameWord, Process, ProcessWords};

/// The stream that `begin exec` begins, or the fault of its name, as a reply has it: `TooLong` over 128 bytes, then
/// `NulByte`.
pub fn exec_stream(word: &NameWord) -> Result<NewStream, &'static [u8]>
    ensures refused_or_begun { stream_found result ≡ exec_stream (name_text word.now) }
{
    let text = word.text.as_slice();
    if text.len() > 128 {
        return Err(b"TooLong");
    }
    if has_nul(text) {
        return Err(b"NulByte");
    }
    Ok(NewStream {
        kind: Kind::Exec,
        name: copied(text),
        pid: 0,
        signal: 0,
        time: 0,
    })
}

/// The stream that `begin core` begins, named by the template, or the fault of its name, as a reply has it: `Empty`,
/// `TooLong`, `NulByte`.
pub fn core_stream(told: &ProcessWords<'_>, naming: &Naming) -> Result<NewStream, &'static [u8]>
    ensures refused_or_begun { stream_found result ≡ core_stream naming.now (process_told told.now) }
{
    process_stream(&told.read(), naming)
}

// The stream for a process's core, or the fault of its name.
fn process_stream(process: &Process, naming: &Naming) -> Result<NewStream, &'static [u8]>
    ensures { stream_found result ≡ core_stream naming.now (process_of process.now) }
{
    match core_name(process, naming) {
        Ok(name) => Ok(NewStream {
            kind: Kind::Core,
            name,
            pid: process.pid,
            signal: process.signal,
            time: process.time,
        }),
        Err(fault) => Err(name_reason(fault)),
    }
}

// The name of a process's core.
fn core_name(process: &Process, naming: &Naming) -> Result<Name, NameFault>
    ensures { MatchResult result (λ name. core_name naming.now (process_of process.now) ≡ Ok name.items)
        (λ fault. core_name naming.now (process_of process.now) ≡ Err fault) }
{
    let facts = Facts {
        comm: process.comm.as_slice(),
        exe: process.exe.as_slice(),
        host: process.host.as_slice(),
        pid: process.pid,
        tid: process.tid,
        signal: process.signal,
        uid: process.uid,
        gid: process.gid,
        mode: process.mode,
        time: process.time,
        limit: process.limit,
    };
    naming.template.expand(&facts, naming.uses_pid)
}

// The name of a template's refusal in replies.
fn name_reason(fault: NameFault) -> &'static [u8]
    ensures { result.now ≡ name_reason fault }
{
    match fault {
        NameFault::Empty => b"Empty",
        NameFault::TooLong => b"TooLong",
        NameFault::NulByte => b"NulByte",
    }
}
