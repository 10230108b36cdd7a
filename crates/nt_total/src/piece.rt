//! Totals of keys, which are put together.

ghost use Rattle.std.specs.Prelude.{◌≡◌, ◌≤◌, ◌^◌, [], length, map};
ghost use Rattle.nt_total.specs.Keys.{key, IsPieceOf, IsJoinOf};

/// The sum of keys, the least and the greatest; of none 0, the largest number and 0.
#[derive(Clone, Copy)]
pub struct Piece {
    pub sum: u128,
    pub least: u64,
    pub greatest: u64,
}

/// Where an element stands in the order of the integers of its width, of which as many as the bias are below zero.
#[inline(always)]
fn key(element: u64, bias: u64) -> u64
    requires { bias ≤ 2 ^ 63 }
    ensures { result ≡ key bias element }
{
    if element < bias {
        element + bias
    } else {
        element - bias
    }
}

impl Piece {
    /// What no keys come to.
    #[inline(always)]
    pub fn none() -> Piece
        ensures { IsPieceOf [] result }
    {
        Piece {
            sum: 0,
            least: u64::MAX,
            greatest: 0,
        }
    }

    /// What two parts come to together.
    #[inline(always)]
    pub fn join(self, other: Piece) -> Piece
        ensures { IsJoinOf self other result }
    {
        Piece {
            sum: self.sum.wrapping_add(other.sum),
            least: self.least.min(other.least),
            greatest: self.greatest.max(other.greatest),
        }
    }
}

/// What the keys of elements come to. They are so few that the sums of their lower and of their higher halves fit 64 bits each.
#[inline(always)]
fn keyed_piece(elements: &[u64], bias: u64) -> Piece
    requires bias { bias ≤ 2 ^ 63 }
    requires few { length elements.now ≤ 2 ^ 31 }
    ensures { IsPieceOf (map (key bias) elements.now) result }
{
    let mut low: u64 = 0;
    let mut high: u64 = 0;
    let mut least = u64::MAX;
    let mut greatest: u64 = 0;
    for element in elements {
        let key = key(*element, bias);
        low += key % (1 << 32);
        high += key >> 32;
        least = least.min(key);
        greatest = greatest.max(key);
    }
    Piece {
        sum: u128::from(low) + (u128::from(high) << 32),
        least,
        greatest,
    }
}

/// What the keys of elements come to. Where there is no bias, no key is reckoned.
pub fn piece_of(elements: &[u64], bias: u64) -> Piece
    requires bias { bias ≤ 2 ^ 63 }
    requires few { length elements.now ≤ 2 ^ 31 }
    ensures { IsPieceOf (map (key bias) elements.now) result }
{
    if bias == 0 {
        return keyed_piece(elements, 0);
    }
    keyed_piece(elements, bias)
}
