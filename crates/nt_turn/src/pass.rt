//! A thread's part in a turn.

ghost use Rattle.std.specs.Prelude.{◌≡◌};

use crate::logged::Logged;
use crate::rule::Place;
use std::marker::Model;

/// What a thread takes the turn with. It has a number, and knows what it has seen of the history.
pub struct Pass<V: Logged> {
    pub(crate) seat: Place<V>,
    pub(crate) number: u32,
    /// How many passes were split off this one.
    pub(crate) splits: u32,
}

impl<V: Logged> Model for Pass<V> {
    ghost use Rattle.nt_turn.specs.Pass.{PassState, IsPass, pass_state};

    ghost Value = { PassState V.Entry V.Birth };

    ghost view = { λ p. pass_state p.seat.table_id p.seat.me.0 };

    ghost invariant = { λ p. IsPass p.number p.splits p.seat.me };
}

impl<V: Logged> Pass<V> {
    /// The number of its entries: from 0 in the order of `split`, or that of the seats for the first pass.
    pub fn number(&self) -> u32
        ensures { result ≡ self.now.number }
    {
        self.number
    }
}
