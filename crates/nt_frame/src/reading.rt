//! Frames and locators at a cursor.

ghost use Rattle.std.specs.Prelude.{◌≡◌, Some, OnErr};
ghost use Rattle.nt_lists.specs.Answering.{Answers};
ghost use Rattle.nt_format.specs.Frames.{record_at, list_at};
ghost use Rattle.nt_format.specs.Locators.{locator_at};

use nt_format::{Locator, LocatorFault};
use nt_num::Cur;

/// A frame's size from here on is negative in two's complement.
const NEGATIVE: u64 = 1 << 63;

/// The size word of a locator from here on has its top bit set.
const NOT_SIMPLE: u32 = 1 << 31;

/// No frame of the kind that was looked for lies in what is left.
#[derive(Clone, Copy, Debug, PartialEq, Eq)]
pub struct FrameFault {
    /// Where it should begin, counted as the cursor's places.
    pub at: usize,
}

/// Reads a record frame, and gives a cursor over its inside. What stands in it behind the contents
/// that the caller knows is to be skipped.
#[tactic(auto, unfolding(nt_format::specs::Frames::record_at))]
pub fn read_record<'a>(cur: &mut Cur<'a>) -> Result<Cur<'a>, FrameFault>
    ensures read { Answers (λ inside. (inside, cur.new)) (λ e. Some e.at) result (record_at cur.old) }
    ensures stays { OnErr result (cur.new ≡ cur.old) }
{
    let fault = FrameFault { at: cur.place() };
    let mut ahead = cur.fork();
    let size = ahead.u64le().map_err(|_| fault)?;
    if size < 8 || size >= NEGATIVE {
        return Err(fault);
    }
    let inside = ahead.part(size as usize - 8).map_err(|_| fault)?;
    *cur = ahead;
    Ok(inside)
}

/// Reads a list frame, and gives the number of its items and a cursor over them.
#[tactic(auto, unfolding(nt_format::specs::Frames::list_at))]
pub fn read_list<'a>(cur: &mut Cur<'a>) -> Result<(u32, Cur<'a>), FrameFault>
    ensures read { Answers (λ found. (found, cur.new)) (λ e. Some e.at) result (list_at cur.old) }
    ensures stays { OnErr result (cur.new ≡ cur.old) }
{
    let fault = FrameFault { at: cur.place() };
    let mut ahead = cur.fork();
    let size = ahead.u64le().map_err(|_| fault)?;
    let count = ahead.u32le().map_err(|_| fault)?;
    if size <= NEGATIVE {
        return Err(fault);
    }
    let whole = size.wrapping_neg() as usize;
    if whole < 12 {
        return Err(fault);
    }
    let inside = ahead.part(whole - 12).map_err(|_| fault)?;
    *cur = ahead;
    Ok((count, inside))
}

/// Reads a simple locator.
#[tactic(auto, unfolding(nt_format::specs::Locators::locator_at))]
pub fn read_locator(cur: &mut Cur) -> Result<Locator, LocatorFault>
    ensures read { Answers (λ found. (found, cur.new)) (λ e. Some e) result (locator_at cur.old) }
    ensures stays { OnErr result (cur.new ≡ cur.old) }
{
    let mut ahead = cur.fork();
    let size = ahead.u32le().map_err(|_| LocatorFault::Short)?;
    if size >= NOT_SIMPLE {
        return Err(LocatorFault::NotSimple { word: size });
    }
    let place = ahead.u64le().map_err(|_| LocatorFault::Short)?;
    *cur = ahead;
    Ok(Locator { size, place })
}
