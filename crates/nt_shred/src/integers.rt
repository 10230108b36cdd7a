//! Integers as elements, of a value and of what stands in a text.

ghost use Rattle.std.specs.Prelude.{◌≡◌, ◌+◌, ◌<◌, ◌≤◌, ◌^◌, Bool, length, true, IfSome};
ghost use Rattle.nt_types.specs.Fits.{is_int};
ghost use Rattle.nt_types.specs.Spelling.{is_width};
ghost use Rattle.nt_plans.specs.Plan.{number};
ghost use Rattle.nt_plans.specs.PlanViews.{plan_view};
ghost use Rattle.nt_trees.specs.Integers.{half, twos_complement};
ghost use Rattle.nt_shred.specs.Walk.{ElementStands};

use nt_event::{signed_integer, unsigned_integer};
use nt_plans::Plan;

/// The column of an integer, its width and its sign.
#[derive(Clone, Copy)]
pub struct Integers {
    pub column: u32,
    pub bits: u8,
    pub signed: bool,
}

/// The column of a plan of integers.
#[inline(always)]
pub fn integers_of(plan: &Plan) -> Option<Integers>
    ensures { IfSome result (λ r. plan_view plan.now ≡ number r.column r.bits r.signed) }
{
    match plan {
        Plan::Number {
            column,
            bits,
            signed,
        } => Some(Integers {
            column: *column,
            bits: *bits,
            signed: *signed,
        }),
        _ => None,
    }
}

/// The highest element of a width.
fn highest(bits: u8) -> u64
    requires { is_width bits ≡ true }
    ensures highest { result + 1 ≡ half bits + half bits }
    ensures whole { result + 1 ≡ 2 ^ bits }
{
    match bits {
        8 => 0xff,
        16 => 0xffff,
        32 => 0xffff_ffff,
        64 => u64::MAX,
        _ => unreachable!(),
    }
}

/// The element of an integer, which is in the range of a width and sign.
pub fn element(value: i128, bits: u8) -> u64
    requires bits { is_width bits ≡ true }
    requires range { (signed : Bool) × (is_int bits signed value ≡ true) }
    ensures element { result ≡ twos_complement bits value }
    ensures fits { result < 2 ^ bits }
{
    let highest = highest(bits);
    if value >= 0 {
        value as u64
    } else {
        highest - (-(value + 1)) as u64
    }
}

/// The element of an integer with a sign, which is in the range of a width.
pub fn signed_element(value: i64, bits: u8) -> u64
    requires bits { is_width bits ≡ true }
    requires range { is_int bits true value ≡ true }
    ensures element { result ≡ twos_complement bits value }
    ensures fits { result < 2 ^ bits }
{
    let highest = highest(bits);
    if value >= 0 {
        value as u64
    } else {
        highest - (-1 - value) as u64
    }
}

/// The element of an integer that stands at a place, and its end.
#[inline(always)]
pub(crate) fn element_at(line: &[u8], at: usize, bits: u8, signed: bool) -> Option<(u64, usize)>
    requires within { at ≤ length line.now }
    requires width { is_width bits ≡ true }
    ensures { IfSome result (λ r. ElementStands bits signed r.0 line.now at r.1) }
{
    if signed {
        let (value, end) = signed_integer(line, at, bits)?;
        Some((signed_element(value, bits), end))
    } else {
        let (value, end) = unsigned_integer(line, at, bits)?;
        Some((value, end))
    }
}
