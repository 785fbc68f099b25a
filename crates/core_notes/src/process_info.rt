// NT_PRPSINFO: a process's state and names.
ghost use Rattle.std.specs.Prelude.{◌≡◌, ◌+◌, ◌*◌, ◌≤◌, ◌<◌, length, slice_index};

use elf_view::{part, text_before_nul, u32_at, u64_at};

/// The state and the names of a process (elf_prpsinfo).
#[derive(Clone, Copy, Debug)]
pub struct PsInfo<'a> {
    desc: &'a [u8],
    pub ghost whole: { length desc.now ≡ 136 },
}

impl<'a> PsInfo<'a> {
    ghost use Rattle.core_notes.specs.Descriptor as spec;
    ghost use Rattle.core_notes.specs.DescriptorWords.{psinfo_bytes};

    pub(crate) fn new(desc: &'a [u8]) -> PsInfo<'a>
        requires { length desc.now ≡ 136 }
        ensures { psinfo_bytes result ≡ desc.now }
    {
        PsInfo { desc }
    }

    /// The state's number.
    pub fn pr_state(&self) -> u8
        ensures { result ≡ slice_index (psinfo_bytes self.now) 0 }
    {
        self.desc[0]
    }

    /// The state's letter.
    pub fn pr_sname(&self) -> u8
        ensures { result ≡ slice_index (psinfo_bytes self.now) 1 }
    {
        self.desc[1]
    }

    /// Whether it is a zombie.
    pub fn pr_zomb(&self) -> u8
        ensures { result ≡ slice_index (psinfo_bytes self.now) 2 }
    {
        self.desc[2]
    }

    /// The nice value.
    pub fn pr_nice(&self) -> i8
        ensures { result ≡ spec.pr_nice (psinfo_bytes self.now) }
    {
        self.desc[3].cast_signed()
    }

    /// The kernel's flags.
    pub fn pr_flag(&self) -> u64
        ensures { result ≡ spec.pr_flag (psinfo_bytes self.now) }
    {
        u64_at(self.desc, 8)
    }

    /// The user.
    pub fn pr_uid(&self) -> u32
        ensures { result ≡ spec.pr_uid (psinfo_bytes self.now) }
    {
        u32_at(self.desc, 16)
    }

    /// The group.
    pub fn pr_gid(&self) -> u32
        ensures { result ≡ spec.pr_gid (psinfo_bytes self.now) }
    {
        u32_at(self.desc, 20)
    }

    /// The process's number.
    pub fn pr_pid(&self) -> i32
        ensures { result ≡ spec.process_pid (psinfo_bytes self.now) }
    {
        u32_at(self.desc, 24).cast_signed()
    }

    /// The parent's number.
    pub fn pr_ppid(&self) -> i32
        ensures { result ≡ spec.process_ppid (psinfo_bytes self.now) }
    {
        u32_at(self.desc, 28).cast_signed()
    }

    /// The process group.
    pub fn pr_pgrp(&self) -> i32
        ensures { result ≡ spec.process_pgrp (psinfo_bytes self.now) }
    {
        u32_at(self.desc, 32).cast_signed()
    }

    /// The session.
    pub fn pr_sid(&self) -> i32
        ensures { result ≡ spec.process_sid (psinfo_bytes self.now) }
    {
        u32_at(self.desc, 36).cast_signed()
    }

    /// The name of the executable, up to 16 bytes.
    pub fn pr_fname(&self) -> &'a [u8]
        ensures { result.now ≡ spec.pr_fname (psinfo_bytes self.now) }
    {
        text_before_nul(part(self.desc, 40, 16))
    }

    /// The words of the command line, up to 80 bytes.
    pub fn pr_psargs(&self) -> &'a [u8]
        ensures { result.now ≡ spec.pr_psargs (psinfo_bytes self.now) }
    {
        text_before_nul(part(self.desc, 56, 80))
    }
}
