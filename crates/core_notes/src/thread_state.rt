// NT_PRSTATUS: the state of a thread.
ghost use Rattle.std.specs.Prelude.{◌≡◌, ◌+◌, ◌*◌, ◌≤◌, ◌<◌, length};

use elf_view::{u16_at, u32_at, u64_at};

/// The state of a thread (elf_prstatus).
#[derive(Clone, Copy, Debug)]
pub struct Status<'a> {
    desc: &'a [u8],
    pub ghost whole: { length desc.now ≡ 376 },
}

impl<'a> Status<'a> {
    ghost use Rattle.core_notes.specs.Descriptor as spec;
    ghost use Rattle.core_notes.specs.DescriptorWords.{status_bytes};

    pub(crate) fn new(desc: &'a [u8]) -> Status<'a>
        requires { length desc.now ≡ 376 }
        ensures { status_bytes result ≡ desc.now }
    {
        Status { desc }
    }

    /// The signal's number, in the siginfo of the thread.
    pub fn si_signo(&self) -> i32
        ensures { result ≡ spec.status_signo (status_bytes self.now) }
    {
        u32_at(self.desc, 0).cast_signed()
    }

    /// The signal's code. Here it is before the errno.
    pub fn si_code(&self) -> i32
        ensures { result ≡ spec.status_code (status_bytes self.now) }
    {
        u32_at(self.desc, 4).cast_signed()
    }

    /// The signal's errno.
    pub fn si_errno(&self) -> i32
        ensures { result ≡ spec.status_errno (status_bytes self.now) }
    {
        u32_at(self.desc, 8).cast_signed()
    }

    /// The signal that the thread was stopped by.
    pub fn pr_cursig(&self) -> i16
        ensures { result ≡ spec.pr_cursig (status_bytes self.now) }
    {
        u16_at(self.desc, 12).cast_signed()
    }

    /// The set of pending signals.
    pub fn pr_sigpend(&self) -> u64
        ensures { result ≡ spec.pr_sigpend (status_bytes self.now) }
    {
        u64_at(self.desc, 16)
    }

    /// The set of held signals.
    pub fn pr_sighold(&self) -> u64
        ensures { result ≡ spec.pr_sighold (status_bytes self.now) }
    {
        u64_at(self.desc, 24)
    }

    /// The thread's number.
    pub fn pr_pid(&self) -> i32
        ensures { result ≡ spec.status_pid (status_bytes self.now) }
    {
        u32_at(self.desc, 32).cast_signed()
    }

    /// The parent's number.
    pub fn pr_ppid(&self) -> i32
        ensures { result ≡ spec.status_ppid (status_bytes self.now) }
    {
        u32_at(self.desc, 36).cast_signed()
    }

    /// The process group.
    pub fn pr_pgrp(&self) -> i32
        ensures { result ≡ spec.status_pgrp (status_bytes self.now) }
    {
        u32_at(self.desc, 40).cast_signed()
    }

    /// The session.
    pub fn pr_sid(&self) -> i32
        ensures { result ≡ spec.status_sid (status_bytes self.now) }
    {
        u32_at(self.desc, 44).cast_signed()
    }

    /// Word `i` of the registers: pc for 0, x`i` for the others.
    pub fn pr_reg(&self, i: usize) -> u64
        requires { i < 32 }
        ensures { result ≡ spec.pr_reg (status_bytes self.now) i }
    {
        u64_at(self.desc, 112 + 8 * i)
    }

    /// Whether the floating registers are there.
    pub fn pr_fpvalid(&self) -> i32
        ensures { result ≡ spec.pr_fpvalid (status_bytes self.now) }
    {
        u32_at(self.desc, 368).cast_signed()
    }
}
