//! One integer.

ghost use Rattle.std.specs.Prelude.{◌≡◌, ◌<◌, ◌^◌, Bool, true, IsTrue};
ghost use Rattle.nt_types.specs.Fits.{is_int};
ghost use Rattle.nt_types.specs.Spelling.{is_width};
ghost use Rattle.nt_trees.specs.Integers.{integer_of, twos_complement};

use crate::level::Integer;
use nt_join::number::integer_of;
use nt_shred::integers::element;

/// The element of the same integer in another width: itself, where it has no sign or lies in that width.
#[inline(always)]
pub fn element_of(of: Integer, bits: u8) -> u64
    requires bits { is_width bits ≡ true }
    requires range { (signed : Bool) × (is_int bits signed (integer_of of.bits of.signed of.element) ≡ true) }
    ensures element { result ≡ twos_complement bits (integer_of of.bits of.signed of.element) }
    ensures fits { result < 2 ^ bits }
{
    if is_itself(of.element, of.bits, of.signed, bits) {
        of.element
    } else {
        element(integer_of(of.element, of.bits, of.signed), bits)
    }
}

/// Whether an element of one width and sign is the same in another width.
#[inline(always)]
fn is_itself(element: u64, from: u8, signed: bool, bits: u8) -> bool
    ensures { IsTrue result → signed ≡ true → (from ≡ bits) × (element < 2 ^ bits) }
{
    !signed || (from == bits && (bits >= 64 || element >> bits == 0))
}
