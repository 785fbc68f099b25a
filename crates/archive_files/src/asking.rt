// A question that only looks, answered while others may change the archive.
ghost use Rattle.std.specs.Prelude.{◌≡◌};
ghost use Rattle.script_lines.specs.Commands.{question_said};
ghost use Rattle.archive_files.specs.Asking.{AsksLooked, DeliversReply, unasked};

use crate::collected::Collected;
use crate::failures::{Failure, FileWord, Refusal};
use crate::looking::look_fault;
use crate::outcomes::ask_told;
use crate::unlocked_asks::ask_unlocked;
use crate::unlocked_faults::AskFault;
use disk_model::Disk;
use inspector_cli::{LifeFault, Question, SessionFault};
use intake::ArchiveFault;
use script_streams::{Output, write_whole};
use shared_disk::{Looked, SharedDisk, Unlocked};
use std::alloc::Global;

/// Answers a question that only looks, from a look at its archive on, or reports why there was no look. The reply is held until all cases
/// that it may be about are found again. So none of it is written if one of them was deleted meanwhile: that is refused as `NoCase`.
/// It is refused as `OutOfMemory` if there is no memory to hold its reply.
pub fn ask_looked<S: SharedDisk + Drop, O: Output>(
    alloc: Global,
    looked: Result<Looked<S>, Refusal>,
    question: Question,
    output: &mut O,
) -> Result<(), Failure>
    ensures { AsksLooked S.SharedDisk ⟦<Unlocked<'static, S> as Disk>⟧ (question_said question) (O.taken output.old) (O.taken output.new) (O.failures output.old) (O.failures output.new) looked result }
{
    let looked = match looked {
        Ok(looked) => looked,
        Err(refusal) => return Err(Failure::Refused(refusal)),
    };
    let mut reply = Collected::new(alloc);
    match ask_unlocked(alloc, looked, question, &mut reply) {
        Ok(is_done) => deliver(reply.text(), is_done, output),
        Err(fault) => Err(Failure::Refused(unasked(fault))),
    }
}

// Writes a reply that was held, and reports how its question ended.
fn deliver<O: Output>(text: &[u8], is_done: bool, output: &mut O) -> Result<(), Failure>
    ensures { DeliversReply (O.taken output.old) (O.taken output.new) (O.failures output.old) (O.failures output.new) text.now is_done result }
{
    match write_whole(output, text) {
        Ok(()) => ask_told(Ok(is_done)),
        Err(_) => Err(Failure::Faulted(SessionFault::WriteFailed)),
    }
}

/// The report on a question that was not answered. Its reply fails only if there is no memory.
pub fn unasked(fault: AskFault) -> Refusal
    ensures { result ≡ unasked fault }
{
    match fault {
        AskFault::Open(fault) => Refusal::Open(fault),
        AskFault::Archive(fault) => Refusal::Call(fault),
        AskFault::Life(LifeFault::Open(fault)) => Refusal::Open(fault),
        AskFault::Life(LifeFault::Session(_)) => Refusal::OutOfMemory,
        AskFault::Look(fault) => Refusal::File(FileWord::Archive, look_fault(fault)),
        AskFault::Reopen(fault) => Refusal::Open(fault),
        AskFault::Gone => Refusal::Call(ArchiveFault::NoCase),
    }
}
