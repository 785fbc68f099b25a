//! On which file system a file lies, by texts of `/proc/self/mountinfo`: a server with NFS, a container, btrfs with subvolumes, and mount
//! points with escapes.
use mount_table::{Concern, concern_of, device_text, kind_of, major, minor};
use std::process::Abort;
use std::test::Fail;

// A machine with a file system of its own and two of a server.
static SERVER: &[u8] = b"22 28 0:20 / /sys rw,nosuid,nodev,noexec,relatime shared:7 - sysfs sysfs rw
28 1 8:2 / / rw,relatime shared:1 - ext4 /dev/sda2 rw,errors=remount-ro
93 28 8:1 / /boot/efi rw,relatime shared:48 - vfat /dev/sda1 rw,fmask=0077,dmask=0077,codepage=437
210 28 0:52 / /var/lib rw,relatime shared:112 - nfs4 store:/export/lib rw,vers=4.2,addr=192.0.2.7
215 210 0:53 / /var/lib/shared\\040cores rw,relatime shared:115 master:3 - nfs store:/ext4\\040cores rw,vers=3
220 28 8:17 /archives /var/lib2 rw,relatime shared:118 - xfs /dev/sdb1 rw,attr2
";

// A container: a file of the host's is mounted over one, and of its lines two have no optional fields.
static CONTAINER: &[u8] =
    b"1046 952 0:47 / / rw,relatime master:310 - overlay overlay rw,lowerdir=/var/lib/l/A:/var/lib/l/B,upperdir=/var/lib/diff,workdir=/var/lib/work
1047 1046 0:51 / /proc rw,nosuid,nodev,noexec,relatime - proc proc rw
1051 1046 0:54 / /dev/shm rw,nosuid,nodev,noexec,relatime - tmpfs shm rw,size=65536k
1052 1046 259:2 /var/lib/containers/hosts /etc/hosts rw,relatime - ext4 /dev/nvme0n1p2 rw
1060 1046 0:60 / /cores rw,relatime shared:9 - tmpfs first rw
1061 1060 0:61 / /cores rw,relatime shared:10 - virtiofs second rw
";

// btrfs gives each subvolume a device that no line has.
static SUBVOLUMES: &[u8] =
    b"25 1 0:22 /@ / rw,relatime shared:1 - btrfs /dev/mapper/root rw,ssd,subvolid=256,subvol=/@
40 25 0:22 /@home /home rw,relatime shared:20 - btrfs /dev/mapper/root rw,ssd,subvolid=257,subvol=/@home
41 25 253:1 / /srv rw,relatime shared:21 - ext4 /dev/mapper/srv rw
";

// Lines that are no mount's, before one that is: too few fields, no hyphen, a hyphen that is not alone, and bytes that are no text.
static BROKEN: &[u8] =
    b"\n28\n28 1 8:2 / / rw\n28 1 8:2 / / rw shared:1 ext4 /dev/sda2 rw\n28 1 8:2 / / rw -ext4 x rw\n28 1 8:2 / / -\n\xff\xfe 1 9:8 / /\xff rw - xfs x rw
28 1 8:2 / / rw shared:1 - f2fs /dev/sda2 rw";

// A device, a path, and the kind that is found.
type Found = (&'static [u8], &'static [u8], Option<&'static [u8]>);

static IN_SERVER: [Found; 12] = [
    (b"8:2", b"/var/lib/archive", Some(b"ext4")),
    (b"0:52", b"/var/lib/archive", Some(b"nfs4")),
    (b"0:5", b"/var/lib/archive", Some(b"nfs4")),
    (b"9:9", b"/var/lib", Some(b"nfs4")),
    (b"9:9", b"/var/lib/", Some(b"nfs4")),
    (b"9:9", b"/var/lib2/archive", Some(b"xfs")),
    (b"9:9", b"/var/lib3/archive", Some(b"ext4")),
    (b"9:9", b"/var/lib/shared cores/archive", Some(b"nfs")),
    (b"9:9", b"/var/lib/shared\\040cores/archive", Some(b"nfs4")),
    (b"9:9", b"/boot/efi/archive", Some(b"vfat")),
    (b"9:9", b"/boot/archive", Some(b"ext4")),
    (b"9:9", b"archive", None),
];

static IN_CONTAINER: [Found; 6] = [
    (b"0:47", b"/archive", Some(b"overlay")),
    (b"259:2", b"/etc/hosts", Some(b"ext4")),
    (b"9:9", b"/etc/hosts", Some(b"ext4")),
    (b"9:9", b"/etc/hosts2", Some(b"overlay")),
    (b"9:9", b"/cores/archive", Some(b"virtiofs")),
    (b"0:60", b"/cores/archive", Some(b"tmpfs")),
];

static IN_SUBVOLUMES: [Found; 3] = [
    (b"0:45", b"/home/archive", Some(b"btrfs")),
    (b"0:45", b"/srv2", Some(b"btrfs")),
    (b"253:1", b"/srv/archive", Some(b"ext4")),
];

static IN_BROKEN: [Found; 1] = [(b"8:2", b"/archive", Some(b"f2fs"))];

// The mounts that are found in a text.
fn finds<R: Abort>(rt: &R, text: &[u8], all: &[Found]) {
    for (device, path, wanted) in all {
        assert_eq!(rt; kind_of(text, device, path), *wanted);
    }
}

#[test]
fn file_systems_of_files(rt: HostRuntime) {
    finds(&rt, SERVER, &IN_SERVER);
    finds(&rt, CONTAINER, &IN_CONTAINER);
    finds(&rt, SUBVOLUMES, &IN_SUBVOLUMES);
    finds(&rt, BROKEN, &IN_BROKEN);
    assert!(rt; kind_of(b"", b"8:2", b"/").is_none());
}

// Devices, with their numbers by `stat --format='%d %Hd:%Ld'`.
static DEVICES: [(u64, u64, u64, &str); 5] = [
    (2050, 8, 2, "8:2"),
    (64768, 253, 0, "253:0"),
    (66306, 259, 2, "259:2"),
    (1_048_630, 0, 310, "0:310"),
    (
        0xffff_ffff_ffff_ffff,
        0xffff_ffff,
        0xffff_ffff,
        "4294967295:4294967295",
    ),
];

#[test]
fn devices_as_the_table_has_them(rt: HostRuntime) {
    for (device, high, low, text) in &DEVICES {
        assert_eq!(rt; major(*device), *high);
        assert_eq!(rt; minor(*device), *low);
        assert_eq!(rt;
            device_text(rt.alloc(), *device)
                .expect(&rt, "no memory")
                .as_str(),
            *text
        );
    }
}

// Kinds, and whether anything is to be known of them.
static KINDS: [(&[u8], Option<Concern>); 16] = [
    (b"ext2", None),
    (b"ext4", None),
    (b"xfs", None),
    (b"f2fs", None),
    (b"", None),
    (b"tmpfs", Some(Concern::InMemory)),
    (b"ramfs", Some(Concern::InMemory)),
    (b"nfs4", Some(Concern::Served)),
    (b"fuse.sshfs", Some(Concern::Served)),
    (b"fuseblk", Some(Concern::Served)),
    (b"9p", Some(Concern::Served)),
    (b"overlay", Some(Concern::Layered)),
    (b"overlayfs", None),
    (b"btrfs", Some(Concern::CopiedUnlessOff)),
    (b"zfs", Some(Concern::Copied)),
    (b"exfat", Some(Concern::Rightless)),
];

#[test]
fn what_is_to_be_known_of_kinds(rt: HostRuntime) {
    for (kind, wanted) in &KINDS {
        assert_eq!(rt; concern_of(kind), *wanted);
        if let Some(concern) = concern_of(kind) {
            assert!(rt; kind.len() + concern.words().len() < 75);
        }
    }
}
