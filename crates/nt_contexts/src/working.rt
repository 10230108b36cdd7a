//! Contexts that come in, run beside each other and leave.

ghost use Rattle.std.specs.Prelude.{◌≡◌, ◌+◌, ◌≤◌, ◌<◌, [], map, vec_len, vec_capacity};
ghost use Rattle.std.specs.List.{AllByRecursion};
ghost use Rattle.nt_types.specs.Views.{members_view};
ghost use Rattle.nt_contexts.specs.Seating.{HasLetIn, CanLeave, TurnsBack, MayWork};
ghost use Rattle.nt_contexts.specs.Working.{HasWorked};

use crate::error::{RunError, refusal_of};
use crate::leaving::leave_all;
use crate::opening::open_all;
use crate::room::take_room;
use crate::seats::{SeatOf, run_all};
use crate::shared::Shared;
use nt_commit::{Committer, Locked};
use nt_outside::{Disk, Gate, Source};
use nt_turn::Pass;
use std::sync::Wait;
use std::thread::Threads;

/// Lets contexts go that were let in and didn't run. Their sources come back, and behind them those that had no seat.
fn turn_back<D: Disk, S: Source>(
    rt: &impl Wait,
    committer: &Committer<D>,
    first: &mut Pass<Locked<D>>,
    seats: Vec<SeatOf<D, S>>,
    sources: Vec<S>,
    back: Vec<S>,
) -> Vec<S>
    requires first { HasLetIn committer.now (vec_len seats) first.old }
    requires seats { AllByRecursion (CanLeave committer.now) seats.items × (vec_len seats ≤ 64) }
    requires room { (back.items ≡ []) × (vec_len seats + vec_len sources ≤ vec_capacity back) }
    ensures { TurnsBack committer.now seats.items first.old first.new sources.items result.items }
{
    let mut sources = sources;
    let mut back = back;
    // none of them ran, so none passes a limit
    let _ = leave_all(rt, committer, 0, first, seats, &mut back);
    let joined = back.append(&mut sources);
    let Ok(()) = joined else { unreachable!() };
    sources.destroy_empty();
    back
}

/// Lets a context in for each source, runs them beside each other and lets them go. The sources come back in their order.
pub(crate) fn work<R, D, S, G>(
    rt: &R,
    committer: &Committer<D>,
    first: &mut Pass<Locked<D>>,
    shared: &Shared<'_, G>,
    sources: Vec<S>,
) -> (Vec<S>, Result<(), RunError>)
where
    R: Threads + Wait + Sync,
    D: Disk + Send,
    D::Pen: Send,
    D::Ext: Send,
    S: Source + Send,
    G: Gate + Sync,
    requires workers { (0 < shared.now.workers) × (shared.now.workers ≤ 64) }
    requires may { MayWork committer.now (members_view shared.now.fields.now) shared.now.schema.now shared.now.params.now
        (vec_len sources) first.old }
    ensures { HasWorked D.state (members_view shared.now.fields.now) shared.now.schema.now shared.now.params.now committer.now
        (map S.state sources.items) (map S.state result.0.items) first.new result.1 }
{
    let alloc = shared.alloc;
    let (mut seats, back) = match take_room(alloc, sources.len()) {
        Ok(room) => room,
        Err(_) => return (sources, Err(RunError::Memory)),
    };
    let mut sources = sources;
    match open_all(rt, alloc, committer, first, &mut sources, &mut seats) {
        Ok(()) => {}
        Err(refused) => {
            let back = turn_back(rt, committer, first, seats, sources, back);
            return (back, Err(refusal_of(refused)));
        }
    }
    match run_all(rt, committer, shared, seats) {
        Ok(seats) => {
            sources.destroy_empty();
            let mut back = back;
            let clusters = shared.params.limits.clusters;
            let answer = leave_all(rt, committer, clusters, first, seats, &mut back);
            (back, answer)
        }
        Err(seats) => {
            let back = turn_back(rt, committer, first, seats, sources, back);
            (back, Err(RunError::Memory))
        }
    }
}
