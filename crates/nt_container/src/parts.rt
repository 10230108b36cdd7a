//! Parts of the container, as far as a reader follows them or a writer fills them in.

/// What the file header says: fBEGIN, where the first key stands; fEND, where the file ends; and
/// fNbytesName, the bytes of that key's header with the file's name and title.
#[derive(Clone, Copy, Debug, PartialEq, Eq)]
pub struct FileHeader {
    pub begin: u32,
    pub end: u64,
    pub name_len: u32,
}

/// What the directory says: fSeekKeys, where the list of keys stands, and fNbytesKeys, its bytes.
#[derive(Clone, Copy, Debug, PartialEq, Eq)]
pub struct Directory {
    pub keys: u64,
    pub keys_len: u32,
}

/// What a key's header says of its object.
#[derive(Clone, Copy, Debug, PartialEq, Eq)]
pub struct Key {
    /// Nbytes: the bytes of header and object, as they are stored.
    pub len: u32,
    /// ObjLen: the bytes of the object once they are uncompressed.
    pub object_len: u32,
    /// KeyLen: the bytes of the header.
    pub header_len: u16,
    /// SeekKey: where the key stands.
    pub place: u64,
}

/// The numbers that begin a key's header.
#[derive(Clone, Copy, Debug, PartialEq, Eq)]
pub struct Sizes {
    pub len: u32,
    pub version: u16,
    pub object_len: u32,
    pub header_len: u16,
}

/// What a writer fills in once a file is whole: its length, and the places of the list of keys and
/// of the list of free pieces.
#[derive(Clone, Copy, Debug, PartialEq, Eq)]
pub struct FileFields {
    pub end: u64,
    pub keys: u64,
    pub free: u64,
}
