//! Numbers of elements.

ghost use Rattle.std.specs.Prelude.{◌≡◌, true};
ghost use Rattle.nt_trees.specs.Integers.{integer_of};

/// The integer that an element of this width stands for, where it has a sign.
fn signed_of(element: u64, bits: u8) -> i128
    ensures { result ≡ integer_of bits true element }
{
    if bits > 64 {
        return i128::from(element);
    }
    let half: u64 = if bits == 0 { 1 } else { 1 << (bits - 1) };
    let top = half - 1 + half;
    if element < half {
        i128::from(element)
    } else if element > top {
        -1
    } else {
        -1 - i128::from(top - element)
    }
}

/// The integer that an element of this width and sign stands for.
pub fn integer_of(element: u64, bits: u8, signed: bool) -> i128
    ensures { result ≡ integer_of bits signed element }
{
    if signed {
        signed_of(element, bits)
    } else {
        i128::from(element)
    }
}
