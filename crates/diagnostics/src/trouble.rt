// A call of the operating system that failed.

/// The call on a file.
#[derive(Clone, Copy, Debug, PartialEq, Eq)]
pub enum Call {
    Read,
    Write,
    Sync,
}

/// A call of the operating system on a file that failed.
#[derive(Clone, Copy, Debug, PartialEq, Eq)]
pub struct Trouble {
    pub call: Call,
    /// The system's number of the error (errno(3)). A read past the end of a file has none.
    pub errno: Option<i32>,
}
