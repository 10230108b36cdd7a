//! Names, as lists of their own.

use std::marker::Model;

/// The name of a field or of a member.
#[derive(Drop)]
pub struct Name {
    list: Vec<u8>,
}

impl Model for Name {
    ghost use Rattle.std.specs.Prelude.{List, ℕ};

    ghost Value = { List ℕ };

    ghost view = { λ n. n.list.items };
}

impl Name {
    ghost use Rattle.std.specs.Prelude.{◌≡◌};

    pub fn from_vec(list: Vec<u8>) -> Self
        ensures { result ≡ list.items }
    {
        Name { list }
    }

    pub fn as_slice(&self) -> &[u8]
        ensures { result.now ≡ self.now }
    {
        self.list.as_slice()
    }

    pub fn into_vec(self) -> Vec<u8>
        ensures { result.items ≡ self }
    {
        self.list
    }
}
