//! How contexts leave.

ghost use Rattle.std.specs.Prelude.{◌≡◌, ◌+◌, ◌≤◌, vec_len, vec_capacity};
ghost use Rattle.std.specs.List.{AllByRecursion};
ghost use Rattle.nt_commit.specs.Holds.{IsFirstOf};
ghost use Rattle.nt_contexts.specs.Seating.{CanLeave, JoinsSeat, LeaveAll};

use crate::error::{ContextError, RunError, and_then};
use crate::seats::{Seat, SeatOf};
use nt_commit::{Committer, Locked};
use nt_outside::{Disk, Source};
use nt_turn::Pass;
use std::sync::Wait;

/// Lets a context go: its pass is joined, its pen goes back where it is still there, and its source comes back.
fn leave_seat<D: Disk, S: Source>(
    rt: &impl Wait,
    committer: &Committer<D>,
    first: &mut Pass<Locked<D>>,
    seat: SeatOf<D, S>,
) -> (S, Result<(), ContextError>)
    requires first { IsFirstOf committer.now first.old }
    requires seat { CanLeave committer.now seat }
    ensures joins { JoinsSeat committer.now seat first.old first.new }
    ensures source { result.0 ≡ seat.lines.source }
    ensures ended { result.1 ≡ seat.ended }
{
    let Seat {
        lines,
        pass,
        pen,
        ended,
    } = seat;
    let Some(pass) = pass else { unreachable!() };
    committer.leave(rt, first, pass, pen);
    (lines.into_source(), ended)
}

/// Lets all contexts go, in the order of their seats, and says how the first of them ended that failed, or that none did.
pub(crate) fn leave_all<D: Disk, S: Source>(
    rt: &impl Wait,
    committer: &Committer<D>,
    clusters: u32,
    first: &mut Pass<Locked<D>>,
    seats: Vec<SeatOf<D, S>>,
    back: &mut Vec<S>,
) -> Result<(), RunError>
    requires first { IsFirstOf committer.now first.old }
    requires seats { AllByRecursion (CanLeave committer.now) seats.items × (vec_len seats ≤ 64) }
    requires room { vec_len back.old + vec_len seats ≤ vec_capacity back.old }
    ensures leave { LeaveAll committer.now clusters seats.items first.old first.new back.old.items back.new.items result }
    ensures capacity { vec_capacity back.new ≡ vec_capacity back.old }
{
    let mut seats = seats;
    let mut answer = Ok(());
    let mut input: u32 = 0;
    while !seats.is_empty() {
        let seat = seats.remove(0);
        let (source, ended) = leave_seat(rt, committer, first, seat);
        back.push_reserved(source);
        answer = and_then(answer, ended, input, clusters);
        input += 1;
    }
    seats.destroy_empty();
    answer
}
