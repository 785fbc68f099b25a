//! The reports of a command while it runs: the progress of its work,
//! why the system failed a call on a file, and how often calls failed.
#![tactic(auto)]

mod failures;
mod trouble;

pub use failures::after_failure;
pub use trouble::{Call, Trouble};

/// An onlooker of a command while it runs. No clause says how it uses the reports.
pub trait Onlooker {
    /// A piece of work of this name begins, over so many bytes, if that is known.
    fn begin(&mut self, work: &'static str, whole: Option<u64>);

    /// So many more bytes of the work are done.
    fn advance(&mut self, count: u64);

    /// The work has ended, well or not.
    fn end(&mut self);

    /// The system failed a call on a file of an archive.
    fn fail(&mut self, trouble: Trouble);
}

/// An onlooker that ignores all reports.
#[derive(Drop)]
pub struct Nobody;

impl Onlooker for Nobody {
    fn begin(&mut self, _work: &'static str, _whole: Option<u64>) {}

    fn advance(&mut self, _count: u64) {}

    fn end(&mut self) {}

    fn fail(&mut self, _trouble: Trouble) {}
}
