// The cases that are retired before a stream is stored.
ghost use Rattle.inspector_cli.specs.Storing.{RetiresForStream, RetiresForName};
ghost use Rattle.stream_names.specs.Commands.{stream_found};
ghost use Rattle.script_streams.specs.Replies.{PrintsReply, printing};

use archive_replies::print_retired;
use disk_model::Disk;
use intake::Archive;
use journal_layout::Name;
use retention::Policy;
use script_streams::{Output, Reply};
use stream_names::NewStream;

// Retires by a policy, if there is one, for this stream, if there
// is one. Returns whether it was answered other than `no REASON`.
pub(crate) fn retire_first<O: Output, D: Disk>(
    policy: Option<Policy>,
    found: &Result<NewStream, &'static [u8]>,
    reply: &mut Reply<'_, O>,
    archive: &mut Archive<D>,
) -> bool
    ensures { PrintsReply (printing O.Output reply.old reply.new) (λ text. RetiresForStream D.Disk archive.old policy (stream_found found.now) text archive.new result) }
{
    let Some(policy) = policy else {
        return true;
    };
    match found {
        Ok(stream) => retire_for_name(policy, &stream.name, reply, archive),
        Err(_) => true,
    }
}

// Retires by a policy for a stream of this name, unless a case that
// stays has it. Returns whether it was answered other than `no REASON`.
fn retire_for_name<O: Output, D: Disk>(
    policy: Policy,
    name: &Name,
    reply: &mut Reply<'_, O>,
    archive: &mut Archive<D>,
) -> bool
    ensures { PrintsReply (printing O.Output reply.old reply.new) (λ text. RetiresForName D.Disk archive.old policy name.now.items text archive.new result) }
{
    let Some(outcome) = archive.retire_for(&policy, name) else {
        return true;
    };
    let is_carried_out = outcome.is_ok();
    print_retired(reply, outcome);
    is_carried_out
}
