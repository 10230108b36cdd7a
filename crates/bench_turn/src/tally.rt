//! What the turn locks here: a number, without a history.

use nt_turn::Logged;

#[derive(Drop)]
pub struct Tally {
    pub count: u64,
}

impl Logged for Tally {
    type Entry = u32;

    type Birth = u32;

    ghost use Rattle.std.specs.Prelude.{[]};

    ghost history = { λ tally. [] };

    ghost birth = { λ tally. 0 };

    ghost context = { λ entry. entry };
}
