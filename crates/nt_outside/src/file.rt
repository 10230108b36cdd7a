//! A file that is read at any place.

ghost use Rattle.std.specs.Prelude.{◌≡◌, ◌<◌, ◌^◌, List, ℕ, length, Some, All};
ghost use Rattle.nt_outside.specs.File.{FileState, TellsSize, ReadsAt};

use crate::fault::Failed;

/// A file whose bytes no call changes.
pub trait ReadAt {
    ghost state: { Self → FileState };

    /// The number of its bytes.
    fn size(&mut self) -> Result<u64, Failed>
        ensures { TellsSize (state self.old) (state self.new) result };

    /// Fills `buf` from place `at`, and says how many bytes it put there: fewer than asked only at the end of the file.
    fn read_at(&mut self, at: u64, buf: &mut [u8]) -> Result<usize, Failed>
        ensures { ReadsAt at (state self.old) (state self.new) buf.new result };

    /// Each of its bytes is one.
    ghost fit: { (f : Self) (told : List ℕ) → (state f).bytes ≡ Some told → All (λ (b : ℕ). b < 2 ^ 8) told };
}
