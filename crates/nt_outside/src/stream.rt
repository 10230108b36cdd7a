//! The streams of a host.

/// A stream that a host prints on.
#[derive(Clone, Copy, Debug, PartialEq, Eq)]
pub enum Stream {
    ToOut,
    ToErr,
}
