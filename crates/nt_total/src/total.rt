//! What the integers of a column come to.

ghost use Rattle.std.specs.Prelude.{◌≡◌, ◌*◌, ◌<◌, ◌≤◌, ◌^◌, ◌-ℤ◌, pos, ℕ, List, map};
ghost use Rattle.nt_total.specs.Keys.{integer_of_key, AreKeysOf};
ghost use Rattle.nt_total.specs.Totals.{is_integral, low_of, IsTotalOf};

use crate::piece::Piece;
use nt_types::ColumnType;

/// How many integers there are, their sum, and the least and the greatest of them.
#[derive(Clone, Copy, Debug, PartialEq, Eq)]
pub struct Total {
    pub count: u64,
    pub sum: i128,
    pub least: Option<i128>,
    pub greatest: Option<i128>,
}

/// Whether the values of a column's type are integers, characters or bytes.
pub fn is_integral(kind: ColumnType) -> bool
    ensures { result ≡ is_integral kind }
{
    !matches!(
        kind,
        ColumnType::Bit
            | ColumnType::Index32
            | ColumnType::Index64
            | ColumnType::Switch
            | ColumnType::SplitIndex32
            | ColumnType::SplitIndex64
    )
}

/// How many of the elements of a type stand for integers below zero.
pub fn low_of(kind: ColumnType) -> u64
    ensures few { result ≤ 2 ^ 63 }
    ensures bias { result ≡ low_of kind }
{
    match kind {
        ColumnType::Int8 => 1 << 7,
        ColumnType::Int16 | ColumnType::SplitInt16 => 1 << 15,
        ColumnType::Int32 | ColumnType::SplitInt32 => 1 << 31,
        ColumnType::Int64 | ColumnType::SplitInt64 => 1 << 63,
        _ => 0,
    }
}

/// The sum of integers by that of their keys, where that is kept whole.
fn sum_by_keys(sum: u128, count: u64, bias: u64) -> i128
    requires { bias ≤ 2 ^ 63 }
    ensures { sum < 2 ^ 124 → result ≡ pos sum -ℤ pos (count * bias) }
{
    let Ok(sum) = i128::try_from(sum) else {
        return 0;
    };
    sum - i128::from(count) * i128::from(bias)
}

/// The integer of a key.
fn integer_of_key(key: u64, bias: u64) -> i128
    ensures { result ≡ integer_of_key bias key }
{
    i128::from(key) - i128::from(bias)
}

/// The total of so many integers whose keys come to a piece.
pub fn total_of_piece(count: u64, piece: Piece, bias: u64) -> Total
    requires { bias ≤ 2 ^ 63 }
    ensures { (ks : List ℕ) → AreKeysOf count piece ks → IsTotalOf (map (integer_of_key bias) ks) result }
{
    if count == 0 {
        return Total {
            count,
            sum: 0,
            least: None,
            greatest: None,
        };
    }
    Total {
        count,
        sum: sum_by_keys(piece.sum, count, bias),
        least: Some(integer_of_key(piece.least, bias)),
        greatest: Some(integer_of_key(piece.greatest, bias)),
    }
}
