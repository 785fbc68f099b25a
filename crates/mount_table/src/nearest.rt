// Which mount a file lies on.
ghost use Rattle.std.specs.Prelude.{◌≡◌, None};
ghost use Rattle.std.specs.Option.{option_map};
ghost use Rattle.mount_table.specs.Lines.{mounts_of};
ghost use Rattle.mount_table.specs.Nearest.{kind_at, kind_of_device, nearest};

use crate::mounts::Mounts;
use crate::points::depth_of;

/// The kind of the file system that a file lies on, by the text of `/proc/self/mountinfo` (proc_pid_mountinfo(5)), the file's device as
/// MAJOR:MINOR, and its path, which must go through no link. It is the kind of the first line with that device. If no line has it, such
/// as for a subvolume of btrfs with a device of its own, it is that of the longest mount point that is the path or a directory above
/// it, and of several such the last line, whose mount covers the others.
pub fn kind_of<'a>(text: &'a [u8], device: &[u8], path: &[u8]) -> Option<&'a [u8]>
    ensures { option_map (λ kind. kind.now) result ≡ kind_at (mounts_of text.now) device.now path.now }
{
    match kind_of_device(text, device) {
        Some(kind) => Some(kind),
        None => nearest_kind(text, path),
    }
}

// The kind of the first mount with a device.
fn kind_of_device<'a>(text: &'a [u8], device: &[u8]) -> Option<&'a [u8]>
    ensures { option_map (λ kind. kind.now) result ≡ kind_of_device device.now (mounts_of text.now) }
{
    let mut mounts = Mounts::new(text);
    while let Some(mount) = mounts.next() {
        if mount.device == device {
            return Some(mount.kind);
        }
    }
    None
}

// The kind of the last of the mounts whose point is the longest that is a path or a directory above it.
fn nearest_kind<'a>(text: &'a [u8], path: &[u8]) -> Option<&'a [u8]>
    ensures { option_map (λ kind. kind.now) result ≡ nearest path.now 0 None (mounts_of text.now) }
{
    let mut mounts = Mounts::new(text);
    let mut kind = None;
    let mut depth = 0;
    while let Some(mount) = mounts.next() {
        match depth_of(mount.point, path) {
            Some(found) if depth <= found => {
                depth = found;
                kind = Some(mount.kind);
            }
            _ => {}
        }
    }
    kind
}
