// A device's number as the table has it.
ghost use Rattle.std.specs.Prelude.{◌≡◌, ◌<◌, ◌^◌, IfOk, string_bytes};
ghost use Rattle.mount_table.specs.Devices.{device_text, major, minor};

use std::alloc::{AllocError, Global};

/// The major number of a device, as the C library of Linux has it (`gnu_dev_major`): bits 8 to 19 of `st_dev`, and above them bits 44 to 63.
pub fn major(device: u64) -> u64
    ensures value { result ≡ major device }
    ensures small { result < 2 ^ 32 }
{
    (device / 256) % 4096 + (device / 0x1000_0000_0000) * 4096
}

/// The minor number of a device (`gnu_dev_minor`): bits 0 to 7 of `st_dev`, and above them bits 20 to 43.
pub fn minor(device: u64) -> u64
    ensures value { result ≡ minor device }
    ensures small { result < 2 ^ 32 }
{
    device % 256 + (device / 0x10_0000) % 0x100_0000 * 256
}

/// A device as MAJOR:MINOR, in decimal digits.
pub fn device_text(alloc: Global, device: u64) -> Result<String, AllocError>
    ensures { IfOk result (λ text. string_bytes text ≡ device_text device) }
{
    let major = major(device);
    let minor = minor(device);
    format!(in alloc; "{major}:{minor}")
}
