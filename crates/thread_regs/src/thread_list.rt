// The threads of a core.
ghost use Rattle.std.specs.Prelude.{◌≡◌, slice_get};
ghost use Rattle.std.specs.Option.{option_map};
ghost use Rattle.core_notes.specs.CoreWords.{notes_seen};
ghost use Rattle.core_notes.specs.Descriptor.{status_pid, pr_cursig};
ghost use Rattle.core_notes.specs.Typed.{all_descs};
ghost use Rattle.thread_regs.specs.Register.{register_in};
ghost use Rattle.thread_regs.specs.RegisterWords.{reg_number};
ghost use Rattle.thread_regs.specs.ThreadWords.{thread_bytes, threads_left};

use crate::registers::Reg;
use core_notes::{CoreNotes, Status, Statuses};

/// A thread of a core.
#[derive(Clone, Copy, Debug)]
pub struct Thread<'a> {
    status: Status<'a>,
}

/// The threads of a core, in the order of their notes.
#[derive(Clone, Copy, Debug)]
pub struct ThreadList<'a> {
    statuses: Statuses<'a>,
}

/// The threads of a core, in the order of their notes: the dumping thread comes first.
pub fn threads<'a>(notes: &CoreNotes<'a>) -> ThreadList<'a>
    ensures { threads_left result ≡ all_descs 1 (notes_seen notes.now) }
{
    ThreadList {
        statuses: notes.statuses(),
    }
}

impl<'a> Iterator for ThreadList<'a> {
    ghost use Rattle.std.specs.Iterator.{YieldsFirstBy, item_count};

    type Item = Thread<'a>;

    ghost next_gives = { YieldsFirstBy thread_bytes threads_left };

    ghost remaining = { item_count threads_left };

    fn next(&mut self) -> Option<Thread<'a>> {
        match self.statuses.next() {
            Some(status) => Some(Thread { status }),
            None => None,
        }
    }
}

impl<'a> ThreadList<'a> {
    /// The thread that is `i` places on, or `None` if there are fewer.
    pub fn thread(&self, i: u64) -> Option<Thread<'a>>
        ensures { option_map thread_bytes result ≡ slice_get (threads_left self.now) i }
    {
        let mut left = *self;
        for _index in 0..i {
            left.next()?;
        }
        left.next()
    }
}

impl<'a> Thread<'a> {
    /// The value of the register; x0 is zero.
    pub fn register(&self, register: Reg) -> u64
        ensures { result ≡ register_in (thread_bytes self.now) (reg_number register) }
    {
        match register.word() {
            Some(word) => self.status.pr_reg(word),
            None => 0,
        }
    }

    /// The thread's number.
    pub fn tid(&self) -> i32
        ensures { result ≡ status_pid (thread_bytes self.now) }
    {
        self.status.pr_pid()
    }

    /// The signal that the thread was stopped by, or 0 for no signal.
    pub fn signal(&self) -> i16
        ensures { result ≡ pr_cursig (thread_bytes self.now) }
    {
        self.status.pr_cursig()
    }
}
