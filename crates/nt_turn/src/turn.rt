//! The lock, and what passes do with it.

ghost use Rattle.std.specs.Prelude.{◌≡◌, ◌+◌, ◌<◌, ◌≤◌, [], Some, IfOk, IfErr};
ghost use mathlib.Core.List.{IsPrefix};
ghost use Rattle.nt_turn.specs.Pass.{IsFree, IsFirst, IsHolder, Took, Adds, AllJoined, Closes, first_pass, next_pass, after_taking, after_giving, after_joining};

use crate::logged::Logged;
use crate::pass::Pass;
use crate::rule::{Gives, Joins, Kept, Learns, Splits};
use crate::view::{Key, View};
use crate::wait::{draw, wait_for};
use atomic_table::{Refused, Table};
use std::alloc::{AllocError, AllocFailed, Global};
use std::marker::Model;
use std::snapshot::Snapshot;
use std::sync::Wait;

/// The word of the next ticket.
pub(crate) const NEXT: usize = 0;

/// The word of the ticket that is served.
pub(crate) const SERVING: usize = 1;

/// The slot of the value.
const VALUE: usize = 0;

/// The most passes that can be split off a first pass.
pub const MOST_SEATS: u32 = 64;

/// The lock, which all threads share.
pub struct Turn<V: Logged> {
    table: Table<Option<V>, View<V::Entry, V::Birth>, Key<V>, Kept, Global>,
}

impl<V: Logged> Model for Turn<V> {
    ghost use Rattle.std.specs.Prelude.{◌≡◌};
    ghost use Rattle.nt_turn.specs.Pass.{TurnState};

    ghost Value = { TurnState V.Birth };

    ghost view = { λ t. record {
      id = t.table.shared.table_id;
      seats = t.table.shared.key.seats;
      birth = V.birth t.table.shared.key.first.value;
    } };

    ghost invariant = { λ t. (t.table.shared.table_id.words ≡ 2) × (t.table.shared.table_id.slots ≡ 1) };
}

impl<V: Logged> Turn<V> {
    /// A turn round a value with an empty history, and its first pass, whose number is that of the seats.
    ///
    /// Without memory the value comes back.
    pub fn new(alloc: Global, value: V, seats: u32) -> Result<(Turn<V>, Pass<V>), (V, AllocError)>
        requires seats { (1 ≤ seats) × (seats ≤ MOST_SEATS) }
        requires empty { V.history value ≡ [] }
        ensures ok { IfOk result (λ t. (t.0.seats ≡ seats) × (t.0.birth ≡ V.birth value) × (t.1 ≡ first_pass t.0)) }
        ensures err { IfErr result (λ e. e.0 ≡ value) }
    {
        let key = Key {
            first: Snapshot::of(&value),
            seats,
        };
        let mut slots = Vec::new(alloc);
        if let Err(failed) = slots.push(Some(value)) {
            let AllocFailed { value } = failed;
            let Some(value) = value else { unreachable!() };
            slots.destroy_empty();
            return Err((value, AllocError));
        }
        match Table::new(alloc, &[0, 0], slots, &key) {
            Ok((table, seat)) => {
                let first = Pass {
                    seat,
                    number: seats,
                    splits: 0,
                };
                Ok((Turn { table }, first))
            }
            Err(refused) => {
                let Refused { mut slots } = refused;
                let Some(slot) = slots.pop() else {
                    unreachable!()
                };
                slots.destroy_empty();
                let Some(value) = slot else { unreachable!() };
                Err((value, AllocError))
            }
        }
    }

    /// Splits a pass off the first, which may have split off as many as there are seats. It gets the next
    /// number, from 0 up.
    pub fn split(&self, first: &mut Pass<V>) -> Pass<V>
        requires first { IsFirst self.now first.old }
        requires room { first.old.splits < self.now.seats }
        ensures first { first.new ≡ record first.old { splits = first.old.splits + 1 } }
        ensures pass { result ≡ next_pass first.old }
    {
        let seat = self.table.shared.split_seat::<Splits>(&mut first.seat);
        let number = first.splits;
        first.splits += 1;
        Pass {
            seat,
            number,
            splits: 0,
        }
    }

    /// Waits for the turn, and takes the value. The pass has then seen its whole history.
    pub fn take(&self, rt: &impl Wait, pass: &mut Pass<V>) -> V
        requires free { IsFree self.now pass.old }
        ensures pass { pass.new ≡ after_taking pass.old (V.history result) }
        ensures took { Took V.history V.birth V.context pass.old result }
    {
        let cells = &self.table.shared;
        let ticket = draw(rt, cells, &mut pass.seat);
        wait_for(rt, cells, &mut pass.seat, ticket);
        let held = cells.exchange(&mut pass.seat, VALUE, None);
        let Some(value) = held else { unreachable!() };
        value
    }

    /// Gives the value back, with entries of the pass behind its history or none, and the turn on.
    pub fn give(&self, pass: &mut Pass<V>, value: V)
        requires holder { IsHolder self.now pass.old }
        requires adds { Adds V.context pass.old (V.history value) }
        requires birth { pass.old.birth ≡ Some (V.birth value) }
        ensures { pass.new ≡ after_giving V.context pass.old (V.history value) }
    {
        let cells = &self.table.shared;
        let out = cells.exchange(&mut pass.seat, VALUE, Some(value));
        let None = out else { unreachable!() };
        cells.fetch_add::<Gives>(&mut pass.seat, SERVING, 1);
    }

    /// Joins a pass to the first, which then keeps its number and entries and has seen what it had.
    pub fn join(&self, first: &mut Pass<V>, other: Pass<V>)
        requires first { IsFirst self.now first.old }
        requires other { IsFree self.now other }
        ensures first { first.new ≡ after_joining first.old other }
        ensures seen { IsPrefix first.old.seen first.new.seen × IsPrefix other.seen first.new.seen }
    {
        let cells = &self.table.shared;
        let Pass {
            seat,
            number: _,
            splits: _,
        } = other;
        cells.join_seat::<Joins>(&mut first.seat, seat);
        cells.load::<Learns>(&mut first.seat, SERVING);
    }

    /// Ends the turn, once each pass was joined.
    pub fn close(self, first: Pass<V>) -> V
        requires first { IsFirst self first }
        requires joined { AllJoined first }
        ensures { Closes V.history V.birth V.context first result }
    {
        let Turn { table } = self;
        let Pass {
            seat,
            number: _,
            splits: _,
        } = first;
        let mut closed = table.close_with(seat);
        let slot = closed.take(VALUE);
        closed.free();
        let Some(value) = slot else { unreachable!() };
        value
    }
}
