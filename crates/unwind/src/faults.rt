// Why frames end.
use crate::row_faults::RowField;
use call_frames::CfiFault;

/// The fault of the instructions of an entry.
#[derive(Clone, Copy, PartialEq, Eq)]
pub struct RowFault {
    /// The field for which its first instruction that can't be executed is refused.
    pub field: RowField,
    /// The number of the entry in its section, from 0 on.
    pub index: u64,
}

/// Why no frame comes after a frame.
#[derive(Clone, Copy, PartialEq, Eq)]
pub enum Stop {
    /// No mapped file is known at the address.
    NoFile,
    /// No executable is attached for the file that is mapped there.
    NoExecutable,
    /// No executable is attached for the file that is mapped there, and one of another build is stored under its name.
    OtherBuild,
    /// No PT_LOAD of the executable has that place of the file, or the address is over 2^64 - 1.
    NoAddress,
    /// No entry covers the address.
    NoEntry,
    /// No entry that is read covers the address, and the executable, or its debug file, has call frame information that is compressed and
    /// can't be read.
    Compressed,
    /// No entry without a fault covers the address. This is the first fault.
    FaultyEntry(CfiFault),
    /// The instructions of the entry that covers the address make no row.
    FaultyRow(RowFault),
    /// The return address is undefined, or the program begins in this code: nothing called it.
    Outermost,
    /// The CFA or the return address needs a DWARF expression.
    Expression,
    /// A register that is needed is not known.
    Undefined,
    /// The CFA is below that of the frame before, or both the CFA and the pc are the same.
    NotRising,
    /// A word that is needed is not there.
    Unreadable,
    /// The return address is 0.
    ZeroPc,
    /// The frame has number 1,023, and another would come after it.
    Limit,
}
