//! The last bytes of an input that comes in pieces.

ghost use Rattle.std.specs.Prelude.{◌≡◌, ℕ, ◌+◌, ◌-◌, ◌%◌, ◌≤◌, List, ◌++◌, length, take, drop};
ghost use Rattle.nt_xxh3.specs.Window.{zero_stripe};

use crate::long::STRIPE;
use std::marker::Model;

/// The most bytes that a window has: a stripe that was taken, and four that may follow it.
const WIDEST: usize = 320;

/// The last bytes that were given, at most 320.
#[derive(Drop)]
pub struct Window {
    bytes: [u8; WIDEST],
    len: usize,
}

impl Model for Window {
    ghost Value = { List ℕ };

    ghost view = { λ w. take w.len w.bytes };

    ghost invariant = { λ w. w.len ≤ 320 };
}

impl Window {
    /// The blank stripe before the input.
    #[tactic(auto, unfolding(crate::specs::Window::zero_stripe))]
    pub fn new() -> Window
        ensures value { result ≡ zero_stripe }
        ensures len { length result ≡ 64 }
    {
        Window {
            bytes: [0; WIDEST],
            len: STRIPE,
        }
    }

    /// How many more bytes it can have.
    pub fn room(&self) -> usize
        ensures { result + length self.now ≡ 320 }
    {
        WIDEST - self.len
    }

    pub fn as_slice(&self) -> &[u8]
        ensures value { result.now ≡ self.now }
        ensures len { length result.now ≡ length self.now }
    {
        &self.bytes[..self.len]
    }

    /// Adds a piece.
    pub fn extend(&mut self, piece: &[u8])
        requires { length self.old + length piece.now ≤ 320 }
        ensures { self.new ≡ self.old ++ piece.now }
    {
        let end = self.len + piece.len();
        self.bytes[self.len..end].copy_from_slice(piece);
        self.len = end;
    }

    /// Keeps the last 64 bytes.
    pub fn keep_last(&mut self)
        requires { 64 ≤ length self.old }
        ensures { self.new ≡ drop (length self.old - 64) self.old }
    {
        self.bytes.copy_within(self.len - STRIPE..self.len, 0);
        self.len = STRIPE;
    }

    /// Goes on over whole stripes to the last of them.
    pub fn slide(&mut self, stripes: &[u8])
        requires one { length self.old ≡ 64 }
        requires whole { length stripes.now % 64 ≡ 0 }
        ensures { self.new ≡ drop (length stripes.now) (self.old ++ stripes.now) }
    {
        if stripes.len() >= STRIPE {
            self.bytes[..STRIPE].copy_from_slice(&stripes[stripes.len() - STRIPE..]);
        }
    }
}
