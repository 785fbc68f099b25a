// The content of addresses.

/// A place in a mapped file.
#[derive(Clone, Copy, Debug)]
pub struct FileSpot<'a> {
    /// The file's name.
    pub name: &'a [u8],
    /// The byte's place in the file.
    pub offset: u64,
}

/// The content of an address.
#[derive(Clone, Copy, Debug)]
pub enum Source<'a> {
    /// This byte, which the core has.
    Byte(u8),
    /// This byte, which the core doesn't have, of the executable that is attached for the mapped file.
    FromFile(u8),
    /// The core has no byte for it; where it lies in the file that is mapped there.
    NotDumped(Option<FileSpot<'a>>),
    /// The core was cut before its byte.
    Cut,
    /// No segment covers it.
    Unmapped,
}

/// The content of the addresses of a piece.
#[derive(Clone, Copy, Debug)]
pub enum PieceKind<'a> {
    /// These bytes, which the core has.
    Bytes(&'a [u8]),
    /// These bytes, which the core doesn't have, of the executable that is attached for the mapped file.
    FromFile(&'a [u8]),
    /// The core has no bytes for them; where the first lies in the file that is mapped there.
    NotDumped(Option<FileSpot<'a>>),
    /// The core was cut before their bytes.
    Cut,
    /// No segment covers them.
    Unmapped,
}

/// Addresses in a row of one kind and one segment, and of one mapped file if the core has no bytes for them.
#[derive(Clone, Copy, Debug)]
pub struct Piece<'a> {
    /// The first address.
    pub first: u64,
    /// How many there are.
    pub length: u64,
    /// Their content.
    pub kind: PieceKind<'a>,
}

/// The place of the bytes of addresses in a row.
#[derive(Clone, Copy, Debug)]
pub enum StretchKind<'a> {
    /// In the core: the first at this place of its image, the others after it.
    Core {
        /// The place of the first.
        offset: u64,
    },
    /// The core doesn't have them; these bytes are those of the executable that is attached for the mapped file.
    FromFile(&'a [u8]),
    /// The core has no bytes for them; where the first lies in the file that is mapped there.
    NotDumped(Option<FileSpot<'a>>),
    /// The core was cut before their bytes.
    Cut,
    /// No segment covers them.
    Unmapped,
}

/// A piece without the bytes that the core has for it: the place of these in the core's image.
#[derive(Clone, Copy, Debug)]
pub struct Stretch<'a> {
    /// The first address.
    pub first: u64,
    /// How many there are.
    pub length: u64,
    /// The place of their bytes.
    pub kind: StretchKind<'a>,
}
