//! Which process holds the lock of a file, by a text of `/proc/locks`: with locks of other kinds, a process that waits, and two of another
//! PID namespace.
use mount_table::{holder_in, locked_file};
use std::process::Abort;

static LOCKS: &[u8] = b"1: POSIX  ADVISORY  READ  812 fe:00:5392057 128 128
2: FLOCK  ADVISORY  WRITE 1234 fe:00:5392057 0 EOF
2: -> FLOCK  ADVISORY  WRITE 1300 fe:00:5392057 0 EOF
3: OFDLCK ADVISORY  WRITE 55 fe:00:5392058 0 EOF
4: FLOCK  ADVISORY  READ  77 103:02:9 0 EOF
5: FLOCK  ADVISORY  WRITE 0 fe:00:7 0 EOF
6: FLOCK  ADVISORY  WRITE 88 fe:00:7 0 EOF
7: FLOCK  ADVISORY  WRITE -1 08:02:7 0 EOF
8: FLOCK  ADVISORY  WRITE 99
";

// Devices and inodes by `stat --format='%d %i'`, and the process that is found.
static HELD: [(u64, u64, Option<u32>); 6] = [
    (65024, 5_392_057, Some(1234)),
    (65024, 5_392_058, None),
    (66306, 9, Some(77)),
    (65024, 7, None),
    (2050, 7, None),
    (65024, 8, None),
];

#[test]
fn processes_that_hold_locks(rt: HostRuntime) {
    for (device, inode, process) in &HELD {
        let file = locked_file(rt.alloc(), *device, *inode).expect(&rt, "no memory");
        assert!(rt; holder_in(LOCKS, file.as_bytes()) == *process);
    }
}
