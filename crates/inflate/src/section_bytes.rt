// The bytes of a section.
ghost use Rattle.std.specs.Prelude.{◌≡◌};

/// The bytes of a section.
#[derive(Drop)]
pub enum SectionBytes<'a> {
    /// They are in the file as they are.
    Stored(&'a [u8]),
    /// They were decompressed.
    Decompressed(Vec<u8>),
}

impl<'a> SectionBytes<'a> {
    ghost use Rattle.inflate.specs.SectionWords.{bytes_in};

    /// The bytes.
    pub fn as_slice(&self) -> &[u8]
        ensures { result.now ≡ bytes_in self.now }
    {
        match self {
            SectionBytes::Stored(bytes) => bytes,
            SectionBytes::Decompressed(bytes) => bytes,
        }
    }
}

/// A section's data.
#[derive(Drop)]
pub struct SectionData<'a> {
    /// sh_addr: the address of the first byte.
    pub addr: u64,
    /// The bytes.
    pub bytes: SectionBytes<'a>,
}
