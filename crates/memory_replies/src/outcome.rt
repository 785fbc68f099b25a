// The outcome of a line whose work takes memory.
ghost use Rattle.std.specs.Prelude.{◌≡◌};
ghost use Rattle.memory_replies.specs.Answers.{outcome_by, is_done, had_memory};

/// The outcome of a line whose work takes memory.
#[derive(Clone, Copy, PartialEq, Eq)]
pub enum Outcome {
    /// The reply shows the answer, and ends with `ok`.
    Done,
    /// The reply is `no REASON`: there is nothing to show.
    Refused,
    /// The reply is `no OutOfMemory`.
    OutOfMemory,
}

impl Outcome {
    /// Whether the reply shows the answer.
    pub fn is_done(self) -> bool
        ensures { result ≡ is_done self }
    {
        matches!(self, Outcome::Done)
    }

    /// Whether there was memory for it.
    pub fn had_memory(self) -> bool
        ensures { result ≡ had_memory self }
    {
        !matches!(self, Outcome::OutOfMemory)
    }
}

// The outcome of a line for which there was memory.
pub(crate) fn outcome_by(done: bool) -> Outcome
    ensures { result ≡ outcome_by done }
{
    if done {
        Outcome::Done
    } else {
        Outcome::Refused
    }
}
