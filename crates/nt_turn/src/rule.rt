//! The rule of the turn's table, and the kinds of step that keep it.

use crate::logged::Logged;
use crate::view::{Key, View};
use atomic_table::{Join, Play, Seat, Shared, Split, TableRule};

/// The tickets are in order, and all passes know of one history.
pub struct Kept;

impl<V: Logged> TableRule<Option<V>, View<V::Entry, V::Birth>, Key<V>> for Kept {
    ghost use Rattle.nt_turn.specs.Rule.{InTurn};
    ghost use Rattle.nt_turn.specs.View.{newcomer};

    ghost holds = { λ key s. InTurn V.history V.birth V.context (V.birth key.first.value) key.seats s.words s.homes s.views };

    ghost first = { λ key. newcomer key.seats (V.birth key.first.value) };
}

/// The words and the slot, as all passes share them.
pub type Cells<V> = Shared<
    Option<V>,
    View<<V as Logged>::Entry, <V as Logged>::Birth>,
    Key<V>,
    Kept,
>;

/// A pass at the table.
pub type Place<V> = Seat<Option<V>, View<<V as Logged>::Entry, <V as Logged>::Birth>>;

/// A step that draws a ticket.
pub struct Draws;

impl<V: Logged> Play<Option<V>, View<V::Entry, V::Birth>> for Draws {
    ghost use Rattle.nt_turn.specs.Steps.{Drew};

    ghost then = { Drew };
}

/// A step that looks whether the ticket is served, and then takes the value.
pub struct Looks;

impl<V: Logged> Play<Option<V>, View<V::Entry, V::Birth>> for Looks {
    ghost use Rattle.nt_turn.specs.Steps.{Looked};

    ghost then = { Looked V.history V.birth V.context };
}

/// A step that gives the value back, and serves the next ticket.
pub struct Gives;

impl<V: Logged> Play<Option<V>, View<V::Entry, V::Birth>> for Gives {
    ghost use Rattle.nt_turn.specs.Steps.{Gave};

    ghost then = { Gave V.history V.context };
}

/// A step that takes in what the pass was told.
pub struct Learns;

impl<V: Logged> Play<Option<V>, View<V::Entry, V::Birth>> for Learns {
    ghost use Rattle.nt_turn.specs.Steps.{Learned};

    ghost then = { Learned };
}

/// Splits a new pass off the first.
pub struct Splits;

impl<E, B> Split<View<E, B>> for Splits {
    ghost use Rattle.nt_turn.specs.View.{after_split, split_off};

    ghost left = { after_split };

    ghost right = { split_off };
}

/// Joins a pass to the first.
pub struct Joins;

impl<E, B> Join<View<E, B>> for Joins {
    ghost use Rattle.nt_turn.specs.View.{joined, spent};

    ghost both = { joined };

    ghost spent = { spent };
}
