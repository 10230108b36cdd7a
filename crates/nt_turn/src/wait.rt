//! Drawing a ticket, and waiting until it is served.
//!
//! There may be more threads than processors. So a pass draws its ticket once all tickets that were drawn
//! are served: one that had a ticket and no processor would hold all others up. Who waits spins a little,
//! then yields the processor, and then sleeps, longer each time.

ghost use Rattle.std.specs.Prelude.{◌≡◌, MatchOption};
ghost use Rattle.nt_turn.specs.Steps.{HoldsNothing, IsWaiting, IsDrawn, Holds};

use crate::logged::Logged;
use crate::rule::{Cells, Draws, Looks, Place};
use crate::turn::{NEXT, SERVING};
use std::sync::Wait;
use std::time::Duration;
use std::{hint, thread};

/// How often a pass that waits spins before it yields.
const SPINS: u32 = 100;

/// How often it then yields before it sleeps.
const YIELDS: u32 = 10;

/// The microseconds of the first sleep. The next are twice as long each, up to 16 times this.
const NAP: u64 = 64;

/// Waits for a moment, after so many moments before. It sleeps only while this ticket is served.
fn pause<V: Logged>(rt: &impl Wait, cells: &Cells<V>, moments: u32, served: u64)
    requires { cells.now.table_id.words ≡ 2 }
{
    if moments < SPINS {
        hint::spin_loop();
    } else if moments < SPINS + YIELDS {
        thread::yield_now();
    } else {
        let nap = match moments - SPINS - YIELDS {
            0 => NAP,
            1 => 2 * NAP,
            2 => 4 * NAP,
            3 => 8 * NAP,
            _ => 16 * NAP,
        };
        let low = (served % (1 << 32)) as u32;
        cells.park_timeout(rt, SERVING, low, Duration::from_micros(nap));
    }
}

/// Tries once to draw a ticket, where all that were drawn were served.
fn try_draw<V: Logged>(cells: &Cells<V>, seat: &mut Place<V>) -> Option<u64>
    requires words { cells.now.table_id.words ≡ 2 }
    requires same { seat.old.table_id ≡ cells.now.table_id }
    requires idle { HoldsNothing seat.old.me }
    ensures same { seat.new.table_id ≡ seat.old.table_id }
    ensures drawn { MatchOption result (seat.new.me ≡ seat.old.me) (λ t. IsDrawn t seat.old.me seat.new.me) }
{
    let ticket = cells.peek(NEXT);
    if ticket != cells.peek(SERVING) || ticket == u64::MAX {
        return None;
    }
    let found = cells.compare_exchange::<Draws>(seat, NEXT, ticket, ticket + 1);
    if found == ticket { Some(ticket) } else { None }
}

/// Draws a ticket.
pub fn draw<V: Logged>(rt: &impl Wait, cells: &Cells<V>, seat: &mut Place<V>) -> u64
    requires words { cells.now.table_id.words ≡ 2 }
    requires same { seat.old.table_id ≡ cells.now.table_id }
    requires idle { HoldsNothing seat.old.me }
    ensures same { seat.new.table_id ≡ seat.old.table_id }
    ensures drawn { IsDrawn result seat.old.me seat.new.me }
{
    let mut moments = 0u32;
    for _ in rt.forever() {
        let served = cells.peek(SERVING);
        if let Some(ticket) = try_draw(cells, seat) {
            return ticket;
        }
        pause(rt, cells, moments, served);
        moments = moments.saturating_add(1);
    }
    unreachable!()
}

/// Waits until the ticket is served, and takes the slot of the value.
pub fn wait_for<V: Logged>(rt: &impl Wait, cells: &Cells<V>, seat: &mut Place<V>, ticket: u64)
    requires words { cells.now.table_id.words ≡ 2 }
    requires same { seat.old.table_id ≡ cells.now.table_id }
    requires waiting { IsWaiting ticket seat.old.me }
    ensures same { seat.new.table_id ≡ seat.old.table_id }
    ensures holding { Holds V.history V.birth V.context ticket seat.old.me seat.new.me }
{
    let mut moments = 0u32;
    for _ in rt.forever() {
        let served = cells.load::<Looks>(seat, SERVING);
        if served == ticket {
            break;
        }
        pause(rt, cells, moments, served);
        moments = moments.saturating_add(1);
    }
}
