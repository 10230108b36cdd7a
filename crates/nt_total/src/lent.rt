//! Numbers that a column lends as they lie, totalled at their width.

ghost use Rattle.std.specs.Prelude.{◌≡◌, ◌≤◌, ◌^◌, ℕ, length, map, IfSome};
ghost use Rattle.nt_column.specs.Elements.{numbers};
ghost use Rattle.nt_column.specs.Words.{lent_elements};
ghost use Rattle.nt_total.specs.Keys.{key, IsPieceOf};

use crate::piece::{Piece, piece_of};
use nt_column::WordSlice;

/// The largest bias of numbers of at most 32 bits.
const NARROW_BIAS: u64 = 1 << 31;

/// A number of at most 32 bits.
pub trait Narrow: Copy {
    ghost number: { Self → ℕ };

    /// The number.
    fn number(self) -> u32
        ensures { result ≡ number self };
}

impl Narrow for u8 {
    ghost number = { λ n. n };

    #[inline(always)]
    fn number(self) -> u32 {
        u32::from(self)
    }
}

impl Narrow for u16 {
    ghost number = { λ n. n };

    #[inline(always)]
    fn number(self) -> u32 {
        u32::from(self)
    }
}

impl Narrow for u32 {
    ghost number = { λ n. n };

    #[inline(always)]
    fn number(self) -> u32 {
        self
    }
}

/// The key of a number of at most 32 bits.
#[inline(always)]
fn narrow_key(element: u32, bias: u32) -> u32
    requires { bias ≤ 2 ^ 31 }
    ensures { result ≡ key bias element }
{
    if element < bias {
        element + bias
    } else {
        element - bias
    }
}

/// What the keys of numbers of at most 32 bits come to. They are so few that their sum fits 64 bits.
#[inline(always)]
fn narrow_piece<W: Narrow>(words: &[W], bias: u32) -> Piece
    requires bias { bias ≤ 2 ^ 31 }
    requires few { length words.now ≤ 2 ^ 31 }
    ensures { IsPieceOf (map (key bias) (map W.number words.now)) result }
{
    let mut sum: u64 = 0;
    let mut least = u32::MAX;
    let mut greatest: u32 = 0;
    for word in words {
        let key = narrow_key(word.number(), bias);
        sum += u64::from(key);
        least = least.min(key);
        greatest = greatest.max(key);
    }
    if words.is_empty() {
        return Piece::none();
    }
    Piece {
        sum: u128::from(sum),
        least: u64::from(least),
        greatest: u64::from(greatest),
    }
}

/// The same, unless the bias is larger than that of any numbers of this width. Where there is none, no key is reckoned.
fn by_width<W: Narrow>(words: &[W], bias: u64) -> Option<Piece>
    requires { length words.now ≤ 2 ^ 31 }
    ensures { IfSome result (λ p. IsPieceOf (map (key bias) (map W.number words.now)) p) }
{
    if bias == 0 {
        return Some(narrow_piece(words, 0));
    }
    if bias > NARROW_BIAS {
        return None;
    }
    Some(narrow_piece(words, bias as u32))
}

/// What the keys of lent numbers come to; none of truth values.
pub fn lent_piece(words: WordSlice<'_>, bias: u64) -> Option<Piece>
    requires bias { bias ≤ 2 ^ 63 }
    requires few { length (lent_elements words) ≤ 2 ^ 31 }
    ensures { IfSome result (λ p. IsPieceOf (map (key bias) (numbers (lent_elements words.entry))) p) }
{
    match words {
        WordSlice::Bits(_) => None,
        WordSlice::Bytes(list) => by_width(list, bias),
        WordSlice::Words16(list) => by_width(list, bias),
        WordSlice::Words32(list) => by_width(list, bias),
        WordSlice::Words64(list) => Some(piece_of(list, bias)),
    }
}
