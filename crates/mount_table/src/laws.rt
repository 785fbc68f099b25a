//! Consequences of the definitions of mount points.
ghost use Rattle.std.specs.Prelude.{◌≡◌, ◌↔◌, ℕ, true, List, None};
ghost use Rattle.mount_table.specs.Lines.{MountView};
ghost use Rattle.mount_table.specs.Nearest.{nearest};
ghost use Rattle.mount_table.specs.PointLaws.{IsAtOrAbove, IsNearest, written};
ghost use Rattle.mount_table.specs.Points.{is_above, unescaped};

/// A mount point as Linux writes it is read as the path that it is.
pub fn a_point_reads_back()
    ensures { (path : List ℕ) → unescaped (written path) ≡ path }
{}

/// A mount point is the path, or a directory above it.
pub fn a_point_is_above()
    ensures { (point path : List ℕ) → (is_above point path ≡ true) ↔ IsAtOrAbove point path }
{}

/// The nearest mount has the longest mount point of those that are
/// the path or a directory above it, and is the last of several.
pub fn the_nearest_is_the_longest()
    ensures { (path : List ℕ) (mounts : List MountView) → IsNearest path mounts (nearest path 0 None mounts) }
{}
