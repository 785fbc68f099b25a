// The answers to lines that no bytes follow: to those that ask nothing, or a step of a stream, and the calls of the
// archive.
ghost use Rattle.std.specs.Prelude.{◌≡◌, [], is_ok, not};
ghost use Rattle.intake.specs.Parts.{state_of};
ghost use Rattle.script_lines.specs.Commands.{asked_by, call_said, question_said};
ghost use Rattle.inspector_cli.specs.Reply.{Ends, Drops, Deletes, Pins, Labels, Upgrades, Retires, Frees};
ghost use Rattle.archive_replies.specs.Texts.{list_reply};
ghost use Rattle.script_streams.specs.Replies.{PrintsReply, PrintsText, printing};
ghost use Rattle.case_queries.specs.Keeping.{AreKept};
ghost use Rattle.case_queries.specs.Seeing.{IsKept};
ghost use Rattle.inspector_cli.specs.Answering.{AnswersTo};
ghost use Rattle.inspector_cli.specs.Asking.{AnswersAsked};

use crate::begin::answer_begin;
use archive_replies::{print_cases, print_free, print_outcome, print_retired, print_stored};
use arrayvec::ArrayVec;
use case_queries::{Images, answer_query};
use disk_model::Disk;
use intake::Archive;
use retention::Policy;
use script_lines::{Call, Question, Request};
use script_streams::{Output, Reply, print_no};
use stream_names::{Naming, core_stream, exec_stream};

// Answers a line that is no question.
pub(crate) fn answer_plain<O: Output, D: Disk>(
    request: Request<'_>,
    reply: &mut Reply<'_, O>,
    archive: &mut Archive<D>,
    naming: &Naming,
)
    ensures { AnswersTo D.Disk naming.now (printing O.Output reply.old reply.new) archive.old (asked_by request.entry) [] archive.new }
{
    match request {
        Request::Silence => {}
        Request::BadLine => print_no(reply, b"BadLine"),
        Request::LineTooLong => print_no(reply, b"LineTooLong"),
        Request::BeginExec { slot, name } => {
            let _ = answer_begin(slot, exec_stream(&name), reply, archive);
        }
        Request::BeginCore { slot, process } => {
            let found = core_stream(&process, naming);
            let _ = answer_begin(slot, found, reply, archive);
        }
        Request::End { slot } => {
            let _ = answer_end(slot, reply, archive);
        }
        Request::Drop { slot } => answer_drop(slot, reply, archive),
    }
}

// Answers a question. Returns whether it is done; if not, it is refused.
pub(crate) fn answer_question<O: Output, D: Disk>(
    question: Question,
    images: &mut Images,
    reply: &mut Reply<'_, O>,
    archive: &mut Archive<D>,
) -> bool
    requires kept { IsKept D.Disk archive.old images.old.kept }
    requires are_kept { AreKept D.Disk archive.old images.old.kept }
    ensures answers { AnswersAsked D.Disk (printing O.Output reply.old reply.new) archive.old (question_said question) result archive.new }
    ensures kept { IsKept D.Disk archive.new images.new.kept }
    ensures are_kept { AreKept D.Disk archive.new images.new.kept }
{
    match question {
        Question::Inspect { seq, query } => answer_query(seq, &query, images, reply, archive),
        Question::Call(call) => {
            images.kept = None;
            answer_call(call, reply, archive)
        }
    }
}

// Answers a call of the archive. Returns whether it is done; if not, it is refused.
fn answer_call<O: Output, D: Disk>(
    call: Call,
    reply: &mut Reply<'_, O>,
    archive: &mut Archive<D>,
) -> bool
    ensures { AnswersAsked D.Disk (printing O.Output reply.old reply.new) archive.old (call_said call) result archive.new }
{
    match call {
        Call::Delete { seq } => answer_delete(seq, reply, archive),
        Call::Pin { seq, flag } => answer_pin(seq, flag, reply, archive),
        Call::Label { seq, label } => answer_label(seq, &label, reply, archive),
        Call::Retire { policy } => answer_retire(policy, reply, archive),
        Call::ListCases => answer_list(reply, archive),
        Call::CountFree => answer_free(reply, archive),
        Call::Upgrade => answer_upgrade(reply, archive),
    }
}

// Answers `end`. Returns the number of the case, if it is stored.
pub(crate) fn answer_end<O: Output, D: Disk>(
    slot: u8,
    reply: &mut Reply<'_, O>,
    archive: &mut Archive<D>,
) -> Option<u32>
    ensures { PrintsReply (printing O.Output reply.old reply.new) (λ text. Ends D.Disk archive.old slot text archive.new result) }
{
    let outcome = archive.finish(slot);
    let stored = outcome.ok();
    print_stored(reply, outcome);
    stored
}

// Answers `drop`.
fn answer_drop<O: Output, D: Disk>(slot: u8, reply: &mut Reply<'_, O>, archive: &mut Archive<D>)
    ensures { PrintsReply (printing O.Output reply.old reply.new) (λ text. Drops D.Disk archive.old slot text archive.new) }
{
    let outcome = archive.abandon(slot);
    print_outcome(reply, outcome);
}

// Answers `delete`. Returns whether it was answered other than `no REASON`.
fn answer_delete<O: Output, D: Disk>(
    seq: u32,
    reply: &mut Reply<'_, O>,
    archive: &mut Archive<D>,
) -> bool
    ensures { PrintsReply (printing O.Output reply.old reply.new) (λ text. (answered : Deletes D.Disk archive.old seq text archive.new) × (result ≡ is_ok answered.0)) }
{
    let outcome = archive.delete(seq);
    let is_carried_out = outcome.is_ok();
    print_outcome(reply, outcome);
    is_carried_out
}

// Answers `pin` and `unpin`. Returns whether it was answered other than `no REASON`.
pub(crate) fn answer_pin<O: Output, D: Disk>(
    seq: u32,
    flag: bool,
    reply: &mut Reply<'_, O>,
    archive: &mut Archive<D>,
) -> bool
    ensures { PrintsReply (printing O.Output reply.old reply.new) (λ text. (answered : Pins D.Disk archive.old seq flag text archive.new) × (result ≡ is_ok answered.0)) }
{
    let outcome = archive.pin(seq, flag);
    let is_carried_out = outcome.is_ok();
    print_outcome(reply, outcome);
    is_carried_out
}

// Answers `label`. Returns whether it was answered other than `no REASON`.
pub(crate) fn answer_label<O: Output, D: Disk>(
    seq: u32,
    label: &ArrayVec<u8, 64>,
    reply: &mut Reply<'_, O>,
    archive: &mut Archive<D>,
) -> bool
    ensures { PrintsReply (printing O.Output reply.old reply.new) (λ text. (answered : Labels D.Disk archive.old seq label.now.items text archive.new) × (result ≡ is_ok answered.0)) }
{
    let outcome = archive.label(seq, label.as_slice());
    let is_carried_out = outcome.is_ok();
    print_outcome(reply, outcome);
    is_carried_out
}

// Answers `upgrade`. Returns whether it was answered other than `no REASON`.
fn answer_upgrade<O: Output, D: Disk>(reply: &mut Reply<'_, O>, archive: &mut Archive<D>) -> bool
    ensures { PrintsReply (printing O.Output reply.old reply.new) (λ text. (answered : Upgrades D.Disk archive.old text archive.new) × (result ≡ is_ok answered.0)) }
{
    let outcome = archive.upgrade();
    let is_carried_out = outcome.is_ok();
    print_outcome(reply, outcome);
    is_carried_out
}

// Answers `retire`. Returns whether it was answered other than `no REASON`.
fn answer_retire<O: Output, D: Disk>(
    policy: Policy,
    reply: &mut Reply<'_, O>,
    archive: &mut Archive<D>,
) -> bool
    ensures { PrintsReply (printing O.Output reply.old reply.new) (λ text. (answered : Retires D.Disk archive.old policy text archive.new) × (result ≡ is_ok answered.0)) }
{
    let outcome = archive.retire(&policy);
    let is_carried_out = outcome.is_ok();
    print_retired(reply, outcome);
    is_carried_out
}

// Answers `list`. Returns whether it was answered other than `no REASON`.
fn answer_list<O: Output, D: Disk>(reply: &mut Reply<'_, O>, archive: &Archive<D>) -> bool
    ensures states { PrintsText (printing O.Output reply.old reply.new) (list_reply (state_of archive.now).stopped (state_of archive.now).version (state_of archive.now).cases) }
    ensures done { result ≡ not (state_of archive.now).stopped }
{
    let Ok(version) = archive.version() else {
        print_no(reply, b"Stopped");
        return false;
    };
    match archive.cases() {
        Ok(cases) => {
            print_cases(reply, version, cases);
            true
        }
        Err(_) => {
            print_no(reply, b"Stopped");
            false
        }
    }
}

// Answers `free`. Returns whether it was answered other than `no REASON`.
fn answer_free<O: Output, D: Disk>(reply: &mut Reply<'_, O>, archive: &Archive<D>) -> bool
    ensures { PrintsReply (printing O.Output reply.old reply.new) (λ text. (answered : Frees archive.now text archive.now) × (result ≡ is_ok answered.0)) }
{
    let counted = archive.free_blocks();
    let is_carried_out = counted.is_ok();
    print_free(reply, counted);
    is_carried_out
}
