//! How contexts are let in.

ghost use Rattle.std.specs.Prelude.{◌≡◌, ◌+◌, ◌<◌, ◌≤◌, [], vec_len, vec_capacity, IfOk, IfErr, OnOk, IsErrOf};
ghost use Rattle.nt_outside.specs.declared.fault.Refused.TheVariants as refused;
ghost use Rattle.nt_contexts.specs.Filling.{HaveFaults};
ghost use Rattle.nt_contexts.specs.Seating.{IsLettingIn, RefusesSeat, IsNewSeat, HasOpened};

use crate::seats::{Seat, SeatOf};
use nt_commit::{Committer, Locked};
use nt_event::LineReader;
use nt_outside::{Disk, Refused, Source};
use nt_turn::Pass;
use std::alloc::Global;
use std::sync::Wait;

/// Lets one more context in, for a source.
fn open_seat<D: Disk, S: Source>(
    rt: &impl Wait,
    alloc: Global,
    committer: &Committer<D>,
    first: &mut Pass<Locked<D>>,
    source: S,
) -> Result<SeatOf<D, S>, (S, Refused)>
    requires letting { IsLettingIn committer.now first.old.splits first.old }
    requires room { first.old.splits < committer.now.birth.contexts }
    ensures ok { IfOk result (λ seat. IsLettingIn committer.now (first.old.splits + 1) first.new
        × IsNewSeat committer.now S.state first.old.splits (S.state source) seat) }
    ensures err { IfErr result (λ e. ((S.state e.0).faults ≡ (S.state source).faults)
        × RefusesSeat committer.now first.old.splits first.new e.1) }
{
    match LineReader::new(alloc, source) {
        Ok(lines) => match committer.enter(rt, first) {
            Ok((pass, pen)) => Ok(Seat {
                lines,
                pass: Some(pass),
                pen: Some(pen),
                ended: Ok(()),
            }),
            Err(refused) => Err((lines.into_source(), refused)),
        },
        Err((source, _)) => Err((source, Refused::Memory)),
    }
}

/// Lets a context in for each source, in their order, up to the first that isn't let in.
pub(crate) fn open_all<D: Disk, S: Source>(
    rt: &impl Wait,
    alloc: Global,
    committer: &Committer<D>,
    first: &mut Pass<Locked<D>>,
    sources: &mut Vec<S>,
    seats: &mut Vec<SeatOf<D, S>>,
) -> Result<(), Refused>
    requires letting { IsLettingIn committer.now 0 first.old × (seats.old.items ≡ []) }
    requires room { (vec_len sources.old ≤ vec_capacity seats.old) × (vec_len sources.old ≤ committer.now.birth.contexts) }
    ensures opened { HasOpened committer.now S.state sources.old.items sources.new.items seats.new.items first.new }
    ensures ok { OnOk result ((sources.new.items ≡ []) × (first.new.own ≡ [])) }
    ensures blamed { IsErrOf result refused.Failed → HaveFaults first.new.own }
{
    while !sources.is_empty() {
        let source = sources.remove(0);
        match open_seat(rt, alloc, committer, first, source) {
            Ok(seat) => seats.push_reserved(seat),
            Err((source, refused)) => {
                let put = sources.insert(0, source);
                let Ok(()) = put else { unreachable!() };
                return Err(refused);
            }
        }
    }
    Ok(())
}
