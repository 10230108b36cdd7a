//! What a host was asked for.

/// A kind of object that a host opens.
#[derive(Clone, Copy, Debug, PartialEq, Eq)]
pub enum Kind {
    Text,
    File,
    Out,
}

/// The kind and the name that a host was asked for.
#[derive(Drop)]
pub struct Ask {
    pub kind: Kind,
    pub name: String,
}
