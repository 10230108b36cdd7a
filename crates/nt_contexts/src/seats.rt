//! Contexts that run beside each other.

ghost use Rattle.std.specs.Prelude.{◌≡◌, ◌<◌, ◌≤◌, ℕ, [], All, IfOk, IfErr, vec_len, vec_capacity, slice_index_or};
ghost use Rattle.std.specs.List.{AllByRecursion};
ghost use Rattle.nt_types.specs.Views.{members_view};
ghost use Rattle.nt_pool.specs.Pool.{AreNumbered};
ghost use Rattle.nt_contexts.specs.Seats.{IsSchemaFor, IsFreshSeat, Ran};
ghost use Rattle.nt_contexts.specs.Jobs.{seats_in, IsContextOf};

use crate::error::ContextError;
use crate::room::take_room;
use crate::running::read_all;
use crate::shared::Shared;
use nt_commit::{Committer, Locked};
use nt_event::LineReader;
use nt_fill::FillContext;
use nt_outside::{Disk, Gate, Source};
use nt_pool::{Job, run_pool};
use nt_turn::Pass;
use std::sync::Wait;
use std::thread::Threads;

/// The seat of a context: the lines of its input, its pass, its pen, which is gone once it failed, and how it ended once it ran.
pub(crate) struct Seat<S, Q, P> {
    pub(crate) lines: LineReader<S>,
    pub(crate) pass: Option<Q>,
    pub(crate) pen: Option<P>,
    pub(crate) ended: Result<(), ContextError>,
}

/// A seat over a disk.
pub(crate) type SeatOf<D, S> = Seat<S, Pass<Locked<D>>, <D as Disk>::Pen>;

/// The context of a seat, as the job of a worker, with what it shares with all others.
pub(crate) struct Context<'a, C, T, G> {
    pub(crate) number: u32,
    pub(crate) seat: T,
    pub(crate) committer: &'a C,
    pub(crate) shared: &'a Shared<'a, G>,
}

/// A context over a disk.
pub(crate) type ContextOf<'a, D, S, G> = Context<'a, Committer<D>, SeatOf<D, S>, G>;

impl<'a, D: Disk, S: Source, G: Gate> Job for Context<'a, Committer<D>, SeatOf<D, S>, G> {
    ghost use Rattle.nt_types.specs.Views.{members_view};
    ghost use Rattle.nt_contexts.specs.Seats.{IsSchemaFor, IsFreshSeat, Ran};

    type Done = SeatOf<D, S>;

    ghost number = { λ j. j.number };

    ghost ready = { λ j. IsSchemaFor j.committer.now (members_view j.shared.now.fields.now) j.shared.now.params.now
        j.shared.now.schema.now × IsFreshSeat S.state j.committer.now j.seat };

    ghost does = { λ j d. Ran D.state S.state (members_view j.shared.now.fields.now) j.shared.now.schema.now j.shared.now.params.now
        j.committer.now j.seat d };

    fn number(&self) -> u32 {
        self.number
    }

    /// A context from its first line to its last. Its pass comes back, and its pen unless that failed.
    fn run<R: Wait>(self, rt: &R) -> SeatOf<D, S> {
        let Context {
            number: _,
            seat,
            committer,
            shared,
        } = self;
        let Seat {
            mut lines,
            pass,
            pen,
            ended: _,
        } = seat;
        let (pass, pen) = match (pass, pen) {
            (Some(pass), Some(pen)) => (pass, pen),
            (_pass, _pen) => unreachable!(),
        };
        let (alloc, schema, params) = (shared.alloc, shared.schema, shared.params);
        match FillContext::new(alloc, committer, schema, params, pass, pen) {
            Ok(mut fill) => {
                let ended = read_all(rt, shared, &mut lines, &mut fill);
                let (pass, pen) = fill.end();
                Seat {
                    lines,
                    pass: Some(pass),
                    pen,
                    ended,
                }
            }
            Err((pass, pen, _)) => Seat {
                lines,
                pass: Some(pass),
                pen: Some(pen),
                ended: Err(ContextError::Memory),
            },
        }
    }
}

/// The contexts of these seats, with their numbers.
fn contexts_of<'a, C, T, G>(
    committer: &'a C,
    shared: &'a Shared<'a, G>,
    seats: Vec<T>,
    room: Vec<Context<'a, C, T, G>>,
) -> Vec<Context<'a, C, T, G>>
    requires few { vec_len seats ≤ 64 }
    requires room { (room.items ≡ []) × (vec_len seats ≤ vec_capacity room) }
    ensures numbered { AreNumbered (λ j. j.number) result.items }
    ensures seats { seats_in result.items ≡ seats.items }
    ensures all { AllByRecursion (IsContextOf committer.now shared.now) result.items }
{
    let mut seats = seats;
    let mut contexts = room;
    let mut number: u32 = 0;
    while !seats.is_empty() {
        let seat = seats.remove(0);
        contexts.push_reserved(Context {
            number,
            seat,
            committer,
            shared,
        });
        number += 1;
    }
    seats.destroy_empty();
    contexts
}

/// The seats of contexts that weren't run.
fn seats_back<C, T, G>(contexts: Vec<Context<'_, C, T, G>>, room: Vec<T>) -> Vec<T>
    requires room { (room.items ≡ []) × (vec_len contexts ≤ vec_capacity room) }
    ensures { result.items ≡ seats_in contexts.entry.items }
{
    let mut contexts = contexts;
    let mut seats = room;
    while !contexts.is_empty() {
        let Context {
            number: _,
            seat,
            committer: _,
            shared: _,
        } = contexts.remove(0);
        seats.push_reserved(seat);
    }
    contexts.destroy_empty();
    seats
}

/// Runs each context to its end, by as many workers as are shared out, beside each other where so many threads can be made. Where memory
/// is short, all seats come back, and no context ran.
pub(crate) fn run_all<R: Threads + Wait + Sync, D: Disk + Send, S: Source + Send, G: Gate + Sync>(
    rt: &R,
    committer: &Committer<D>,
    shared: &Shared<'_, G>,
    seats: Vec<SeatOf<D, S>>,
) -> Result<Vec<SeatOf<D, S>>, Vec<SeatOf<D, S>>>
where
    D::Ext: Send,
    D::Pen: Send,
    requires numbers { (vec_len seats ≤ 64) × (0 < shared.now.workers) × (shared.now.workers ≤ 64) }
    requires schema { IsSchemaFor committer.now (members_view shared.now.fields.now) shared.now.params.now shared.now.schema.now }
    requires fresh { All (IsFreshSeat S.state committer.now) seats.items }
    ensures ok { IfOk result (λ new. (vec_len new ≡ vec_len seats) × ((i : ℕ) (d : _) → i < vec_len seats
        → Ran D.state S.state (members_view shared.now.fields.now) shared.now.schema.now shared.now.params.now committer.now
        (slice_index_or seats.items i d) (slice_index_or new.items i d))) }
    ensures err { IfErr result (λ back. back.items ≡ seats.items) }
{
    match take_room(shared.alloc, seats.len()) {
        Ok((room, back)) => {
            let contexts = contexts_of(committer, shared, seats, room);
            match run_pool(rt, shared.alloc, contexts, shared.workers) {
                Ok(done) => {
                    back.destroy_empty();
                    Ok(done)
                }
                Err((contexts, _)) => Err(seats_back(contexts, back)),
            }
        }
        Err(_) => Err(seats),
    }
}
