// NT_SIGINFO: the signal that was met.
ghost use Rattle.std.specs.Prelude.{◌≡◌, ◌+◌, ◌*◌, ◌≤◌, ◌<◌, length};

use elf_view::{u32_at, u64_at};

// The signals that come with an address (signal(7), RISC-V).
const SIGILL: i32 = 4;

const SIGTRAP: i32 = 5;

const SIGBUS: i32 = 7;

const SIGFPE: i32 = 8;

const SIGSEGV: i32 = 11;

// The codes that come with a sender (sigaction(2)).
const SI_USER: i32 = 0;

const SI_QUEUE: i32 = -1;

const SI_TKILL: i32 = -6;

/// The signal that a process met (siginfo).
#[derive(Clone, Copy, Debug)]
pub struct SigInfo<'a> {
    desc: &'a [u8],
    pub ghost whole: { 24 ≤ length desc.now },
}

impl<'a> SigInfo<'a> {
    ghost use Rattle.core_notes.specs.Descriptor as spec;
    ghost use Rattle.core_notes.specs.DescriptorWords.{siginfo_bytes};

    pub(crate) fn new(desc: &'a [u8]) -> SigInfo<'a>
        requires { 24 ≤ length desc.now }
        ensures { siginfo_bytes result ≡ desc.now }
    {
        SigInfo { desc }
    }

    /// The signal's number.
    pub fn si_signo(&self) -> i32
        ensures { result ≡ spec.si_signo (siginfo_bytes self.now) }
    {
        u32_at(self.desc, 0).cast_signed()
    }

    /// The errno. Here it is before the code.
    pub fn si_errno(&self) -> i32
        ensures { result ≡ spec.si_errno (siginfo_bytes self.now) }
    {
        u32_at(self.desc, 4).cast_signed()
    }

    /// The code: the source of the signal.
    pub fn si_code(&self) -> i32
        ensures { result ≡ spec.si_code (siginfo_bytes self.now) }
    {
        u32_at(self.desc, 8).cast_signed()
    }

    /// Whether the code comes with a sender.
    fn has_sender(&self) -> bool
        ensures { result ≡ spec.has_sender (spec.si_code (siginfo_bytes self.now)) }
    {
        let code = self.si_code();
        code == SI_USER || code == SI_QUEUE || code == SI_TKILL
    }

    /// Whether the signal comes with an address.
    fn is_address_signal(&self) -> bool
        ensures { result ≡ spec.is_address_signal (spec.si_signo (siginfo_bytes self.now)) }
    {
        let signal = self.si_signo();
        signal == SIGILL
            || signal == SIGTRAP
            || signal == SIGBUS
            || signal == SIGFPE
            || signal == SIGSEGV
    }

    /// The sender's process, if the code is SI_USER, SI_QUEUE or SI_TKILL.
    pub fn si_pid(&self) -> Option<i32>
        ensures { result ≡ spec.si_pid (siginfo_bytes self.now) }
    {
        if self.has_sender() {
            Some(u32_at(self.desc, 16).cast_signed())
        } else {
            None
        }
    }

    /// The sender's user, if the code is SI_USER, SI_QUEUE or SI_TKILL.
    pub fn si_uid(&self) -> Option<u32>
        ensures { result ≡ spec.si_uid (siginfo_bytes self.now) }
    {
        if self.has_sender() {
            Some(u32_at(self.desc, 20))
        } else {
            None
        }
    }

    /// The address at which the signal arose, if there is no sender
    /// and the signal is SIGILL, SIGTRAP, SIGBUS, SIGFPE or SIGSEGV.
    pub fn si_addr(&self) -> Option<u64>
        ensures { result ≡ spec.si_addr (siginfo_bytes self.now) }
    {
        if !self.has_sender() && self.is_address_signal() {
            Some(u64_at(self.desc, 16))
        } else {
            None
        }
    }
}
