//! What the container says of the ntuple in it.

/// Where the header and the footer of an ntuple stand (RNTuple Binary Format Specification 1.0.0.0,
/// section Anchor Schema): each envelope's place in the file, its bytes there, and its bytes once
/// they are uncompressed.
#[derive(Clone, Copy, Debug, PartialEq, Eq)]
pub struct Anchor {
    pub header: u64,
    pub header_size: u64,
    pub header_len: u64,
    pub footer: u64,
    pub footer_size: u64,
    pub footer_len: u64,
}
