// The request that the words of `prune` make.
ghost use Rattle.std.specs.Prelude.{◌≡◌, IfErr, IfOk};
ghost use Rattle.archive_files.specs.declared.failures.Refusal.TheVariants.{BadLine};
ghost use Rattle.command_line.specs.Asking as asking;

use crate::store_words::number_of;
use archive_files::Refusal;
use case_info::PruneWords;
use command_words::Given;
use retention::Policy;

// Which cores go, and whether the cases are deleted.
pub(crate) fn prune_words(given: &Given<'_>) -> Result<PruneWords, Refusal>
    ensures pruned { IfOk result (asking.IsPruned given.now) }
    ensures refused { IfErr result (λ why. why ≡ BadLine) }
{
    let keep = number_of(given.text("cores"))?;
    let bytes = number_of(given.text("bytes"))?;
    let before = number_of(given.text("before"))?;
    Ok(PruneWords {
        policy: Policy {
            keep,
            bytes,
            before,
        },
        deletes: given.flag("yes"),
    })
}
