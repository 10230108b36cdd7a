//! The checksum of bytes that come in pieces.

ghost use Rattle.std.specs.Prelude.{◌≡◌, ℕ, ◌+◌, ◌*◌, ◌%◌, ◌^◌, ◌<◌, ◌≤◌, List, [], ◌++◌, length};

use crate::long::{Lanes, STRIPE};
use crate::whole;
use crate::window::Window;

/// The XXH3-64 of all pieces given so far, joined, with seed 0.
///
/// It keeps eight numbers and at most the last 320 bytes, and takes no memory. Of a piece it copies
/// at most 256 bytes, and reads the others once, where they lie.
#[derive(Drop)]
pub struct Sum {
    lanes: Lanes,
    window: Window,
    ghost begun: { 64 ≤ length window },
    ghost in_range: { 64 * lanes.taken + length window < 2 ^ 63 + 64 },
}

impl Sum {
    ghost use Rattle.nt_xxh3.specs.Sum.{xxh3};
    ghost use Rattle.nt_xxh3.specs.Pieces.{WasGiven, Splits, IsMore, total_of};

    /// The sum of no bytes yet.
    #[tactic(auto, unfolding(crate::specs::Pieces::WasGiven, crate::specs::Pieces::total_of))]
    pub fn new() -> Sum
        ensures total { total_of result ≡ 0 }
        ensures holds { WasGiven result [] }
    {
        Sum {
            lanes: Lanes::new(),
            window: Window::new(),
        }
    }

    /// Adds a piece to the bytes given so far.
    #[tactic(auto, unfolding(crate::specs::Pieces::WasGiven, crate::specs::Pieces::total_of))]
    pub fn update(&mut self, piece: &[u8])
        requires { total_of self.old + length piece.now < 2 ^ 63 }
        ensures total { total_of self.new ≡ total_of self.old + length piece.now }
        ensures holds { (m : List ℕ) → WasGiven self.old m → WasGiven self.new (m ++ piece.now) }
    {
        if piece.len() <= self.window.room() {
            self.window.extend(piece);
            return;
        }
        let (front, rest) = piece.split_at(self.window.room() % STRIPE);
        self.window.extend(front);
        self.take_window();
        self.take_rest(rest);
    }

    /// Takes the stripes of the window.
    #[tactic(auto, unfolding(crate::specs::Pieces::total_of))]
    fn take_window(&mut self)
        requires { length self.old.window % 64 ≡ 0 }
        ensures window { length self.new.window ≡ 64 }
        ensures total { total_of self.new ≡ total_of self.old }
        ensures keeps { (m : List ℕ) → Splits self.old m → Splits self.new m }
    {
        self.lanes.take_stripes(&self.window.as_slice()[STRIPE..]);
        self.window.keep_last();
    }

    /// Takes the stripes of a piece that end before its last byte.
    #[tactic(auto, unfolding(crate::specs::Pieces::total_of))]
    fn take_rest(&mut self, rest: &[u8])
        requires window { length self.old.window ≡ 64 }
        requires more { IsMore self.old rest.now }
        ensures window { 64 < length self.new.window }
        ensures total { total_of self.new ≡ total_of self.old + length rest.now }
        ensures keeps { (m : List ℕ) → Splits self.old m → Splits self.new (m ++ rest.now) }
    {
        let (stripes, tail) = rest.split_at((rest.len() - 1) / STRIPE * STRIPE);
        self.lanes.take_stripes(stripes);
        self.window.slide(stripes);
        self.window.extend(tail);
    }

    /// The sum of all bytes given so far. More may follow.
    #[tactic(auto, unfolding(crate::specs::Pieces::WasGiven, crate::specs::Pieces::total_of))]
    pub fn finish(&self) -> u64
        ensures { (m : List ℕ) → WasGiven self.now m → result ≡ xxh3 m }
    {
        let window = self.window.as_slice();
        let rest = &window[STRIPE..];
        if self.lanes.taken == 0 {
            return whole::sum(rest);
        }
        let len = STRIPE * self.lanes.taken + rest.len();
        let mut lanes = self.lanes;
        lanes.take_stripes(&rest[..rest.len().saturating_sub(1)]);
        lanes.finish(&window[rest.len()..], len as u64)
    }
}
