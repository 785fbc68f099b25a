//! The numbers that DWARF gives the registers (RISC-V ELF psABI, "DWARF Register Numbers"): 0 to 31 are x0 to x31.

/// x1: the return address that a call writes.
pub const RA: u64 = 1;

/// x2: the stack pointer.
pub const SP: u64 = 2;

/// x8, s0: the frame pointer, if code keeps one.
pub const FP: u64 = 8;
