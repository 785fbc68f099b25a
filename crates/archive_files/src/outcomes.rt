// The report of the end of a piece of work over the archive on a disk.
ghost use Rattle.std.specs.Prelude.{◌≡◌};
ghost use Rattle.archive_files.specs.Told.{life_failure, run_told, ask_told, store_told};

use crate::failures::{Failure, Refusal};
use inspector_cli::{LifeFault, StoreOutcome};

/// The report of the end of a session.
pub fn run_told(ended: Result<(), LifeFault>) -> Result<(), Failure>
    ensures { result ≡ run_told ended }
{
    match ended {
        Ok(()) => Ok(()),
        Err(fault) => Err(life_failure(fault)),
    }
}

/// The report of the end of a question: its reply has said why it is refused.
pub fn ask_told(asked: Result<bool, LifeFault>) -> Result<(), Failure>
    ensures { result ≡ ask_told asked }
{
    match asked {
        Ok(true) => Ok(()),
        Ok(false) => Err(Failure::Told),
        Err(fault) => Err(life_failure(fault)),
    }
}

/// The report of a fault of an opening, or of a session.
pub fn life_failure(fault: LifeFault) -> Failure
    ensures { result ≡ life_failure fault }
{
    match fault {
        LifeFault::Open(fault) => Failure::Refused(Refusal::Open(fault)),
        LifeFault::Session(fault) => Failure::Faulted(fault),
    }
}

/// The report of the end of a store: it is done if the case is stored, and neither its policy nor its label nor its pin was refused.
pub fn store_told(ended: Result<StoreOutcome, LifeFault>) -> Result<(), Failure>
    ensures { result ≡ store_told ended }
{
    match ended {
        Ok(outcome) => {
            let is_tagged = outcome.labelled && outcome.pinned;
            if outcome.retired_first && outcome.stored.is_some() && is_tagged {
                Ok(())
            } else {
                Err(Failure::Told)
            }
        }
        Err(fault) => Err(life_failure(fault)),
    }
}
