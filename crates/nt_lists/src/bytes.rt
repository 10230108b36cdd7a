//! A list of bytes.

ghost use Rattle.std.specs.Prelude.{◌≡◌, ◌+◌, ◌≤◌, List, ℕ, length};
ghost use Rattle.nt_lists.specs.Places.{put_at};

use std::marker::Model;

/// Bytes that are owned. No call here takes memory.
#[derive(Drop)]
pub struct Bytes {
    list: Vec<u8>,
}

impl Model for Bytes {
    ghost Value = { List ℕ };

    ghost view = { λ b. b.list.items };
}

impl Bytes {
    pub fn from_vec(list: Vec<u8>) -> Self
        ensures { result ≡ list.items }
    {
        Bytes { list }
    }

    pub fn as_slice(&self) -> &[u8]
        ensures { result.now ≡ self.now }
    {
        &self.list
    }

    pub fn into_vec(self) -> Vec<u8>
        ensures { result.items ≡ self }
    {
        self.list
    }

    /// Puts bytes over those at a place.
    pub fn put_over(&mut self, at: usize, bytes: &[u8])
        requires { at + length bytes.now ≤ length self.old }
        ensures { self.new ≡ put_at self.old at bytes.now }
    {
        put_in(&mut self.list, at, bytes);
    }
}

/// Puts bytes over those at a place of a list.
fn put_in(list: &mut Vec<u8>, at: usize, bytes: &[u8])
    requires { at + length bytes.now ≤ length list.old.items }
    ensures { list.new.items ≡ put_at list.old.items at bytes.now }
{
    list[at..at + bytes.len()].copy_from_slice(bytes);
}
