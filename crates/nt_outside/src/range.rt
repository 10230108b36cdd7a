//! Ranges of a file that are written beside its other calls, without a lock.

ghost use Rattle.std.specs.Prelude.{◌≡◌, ◌≤◌, List, ℕ, length, false, true, Some, IsSome};
ghost use Rattle.std.specs.List.{remove};
ghost use Rattle.nt_outside.specs.Range.{ExtState, PenState, IsSized, Fills, without};

use crate::fault::Failed;

/// A range of a file, in bytes.
#[derive(Clone, Copy, Debug, PartialEq, Eq)]
pub struct Range {
    pub start: u64,
    pub len: u64,
}

/// The sole right to write a range. It ends by its disk's `settle` alone: its type can't be dropped here.
pub trait Ext {
    ghost state: { Self → ExtState };

    /// The place of its first byte.
    fn start(&self) -> u64
        ensures { result ≡ (state self.now).range.start };

    /// The number of its bytes.
    fn len(&self) -> u64
        ensures { result ≡ (state self.now).range.len };

    /// Whether it has its bytes.
    fn filled(&self) -> bool
        ensures { result ≡ (state self.now).filled };

    /// Only a filled extent has bytes, and they are as many as it is long.
    ghost sized: { (e : Self) (bytes : List ℕ) → (state e).content ≡ Some bytes → IsSized (state e) bytes };

    /// A filled extent that tells its bytes has some.
    ghost told: { (e : Self) → (state e).filled ≡ true → (state e).tells ≡ true → IsSome (state e).content };
}

/// What fills extents. It touches no other range and no lock.
pub trait Pen {
    type Ext: Ext;

    ghost state: { Self → PenState };

    /// How often a fill has failed.
    fn faults(&self) -> u64
        ensures { result ≡ (state self.now).faults };

    /// Gives an extent its bytes. After `Failed` it has none, and may be filled again.
    fn fill(&mut self, ext: &mut Self::Ext, bytes: &[u8]) -> Result<(), Failed>
        requires empty { (Self.Ext.state ext.old).filled ≡ false }
        requires whole { length bytes.now ≡ (Self.Ext.state ext.old).range.len }
        ensures { Fills bytes.now (Self.Ext.state ext.old) (Self.Ext.state ext.new) (state self.old) (state self.new) result };
}

/// The place of the first range that is this one, or the number of ranges.
fn place_of(out: &[Range], range: Range) -> usize
    ensures place { without range out.now ≡ remove out.now result }
    ensures most { result ≤ length out.now }
{
    for i in 0..out.len() {
        let found = &out[i];
        if *found == range {
            return i;
        }
    }
    out.len()
}

/// Takes the first range off that is this one, as `settle` does with the ranges that are out.
pub fn take_off(out: &mut Vec<Range>, range: Range)
    ensures { out.new.items ≡ without range out.old.items }
{
    let place = place_of(out, range);
    if place < out.len() {
        out.remove(place);
    }
}
