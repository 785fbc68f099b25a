// The concern about a file system on which an archive is to be kept.
ghost use Rattle.std.specs.Prelude.{◌≡◌};
ghost use Rattle.mount_table.specs.Concerns.{concern_of, is_served, words_of};

/// Why a file system does not give a property that an archive counts on.
#[derive(Clone, Copy, Debug, PartialEq, Eq)]
pub enum Concern {
    /// It lies in memory.
    InMemory,
    /// Its files are another machine's, or another program's.
    Served,
    /// Its writes go to another file system, in a layer that may be thrown away.
    Layered,
    /// A write in place takes new room.
    Copied,
    /// The same, unless that is turned off for a file.
    CopiedUnlessOff,
    /// It keeps no rights.
    Rightless,
}

/// The concern about a kind of file system, if there is any. There is no concern about those that keep a journal on a local disk,
/// and about kinds that are not known here.
pub fn concern_of(kind: &[u8]) -> Option<Concern>
    ensures { result ≡ concern_of kind.now }
{
    if kind == b"tmpfs".as_slice() || kind == b"ramfs".as_slice() {
        Some(Concern::InMemory)
    } else if is_served(kind) {
        Some(Concern::Served)
    } else if kind == b"overlay".as_slice() {
        Some(Concern::Layered)
    } else if kind == b"btrfs".as_slice() {
        Some(Concern::CopiedUnlessOff)
    } else if kind == b"zfs".as_slice() || kind == b"bcachefs".as_slice() {
        Some(Concern::Copied)
    } else if kind == b"vfat".as_slice() || kind == b"exfat".as_slice() {
        Some(Concern::Rightless)
    } else {
        None
    }
}

// Whether the files of a kind are another machine's, or another program's.
fn is_served(kind: &[u8]) -> bool
    ensures { result ≡ is_served kind.now }
{
    kind == b"nfs".as_slice()
        || kind == b"nfs4".as_slice()
        || kind == b"cifs".as_slice()
        || kind == b"smb3".as_slice()
        || kind == b"9p".as_slice()
        || kind == b"virtiofs".as_slice()
        || kind == b"ceph".as_slice()
        || kind.starts_with(b"fuse")
}

impl Concern {
    /// The warning for people.
    pub fn words(self) -> &'static [u8]
        ensures { result.now ≡ words_of self }
    {
        match self {
            Concern::InMemory => b"its files are lost when the machine stops or restarts",
            Concern::Served => b"its server decides what a sync keeps; locks may be local only",
            Concern::Layered => b"the file is lost with its container; syncs are the upper layer's",
            Concern::Copied => b"rewriting takes new room, and can fail on a full file system",
            Concern::CopiedUnlessOff =>
                b"rewriting takes new room and can fail when it is full; see chattr +C",
            Concern::Rightless => b"it keeps no owners or rights, and a sync promises less",
        }
    }
}
