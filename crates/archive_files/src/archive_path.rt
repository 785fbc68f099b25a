/// The file of an archive, and whether to wait for it if another process has it.
#[derive(Clone, Copy)]
pub struct ArchivePath<'a> {
    pub path: &'a str,
    pub waits: bool,
}

impl<'a> ArchivePath<'a> {
    /// The same file, without waiting.
    pub(crate) fn at_once(self) -> ArchivePath<'a> {
        ArchivePath {
            path: self.path,
            waits: false,
        }
    }
}
