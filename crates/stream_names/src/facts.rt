//! The facts that a template's letters stand for.

/// The known facts about a process that dumps core (core(5), "Naming of core dump files").
#[derive(Clone, Copy)]
pub struct Facts<'a> {
    /// The name of the command. `%e` is its first 15 bytes.
    pub comm: &'a [u8],
    /// The path of the executable. In `%E` each `/` is written as `!`.
    pub exe: &'a [u8],
    /// The name of the host: `%h`.
    pub host: &'a [u8],
    /// The process: `%p` and `%P`.
    pub pid: u32,
    /// The thread: `%i` and `%I`.
    pub tid: u32,
    /// The number of the signal: `%s`.
    pub signal: u32,
    /// The real user: `%u`.
    pub uid: u32,
    /// The real group: `%g`.
    pub gid: u32,
    /// The dump mode: `%d`.
    pub mode: u32,
    /// The time of the dump, in seconds since the epoch: `%t`.
    pub time: u64,
    /// The soft limit on the size of a core file, in bytes: `%c`.
    pub limit: u64,
}
