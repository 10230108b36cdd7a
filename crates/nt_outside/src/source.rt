//! A text that is read once, from its beginning to its end.

ghost use Rattle.std.specs.Prelude.{◌≡◌, ◌⊎◌, ◌+◌, ◌<◌, ◌≤◌, ◌^◌, length, vec_len, IfOk, OnOk, IsErrOf};
ghost use Rattle.nt_outside.specs.declared.fault.Refused.TheVariants.{Failed as refused_failed};
ghost use Rattle.nt_outside.specs.Faults.{RoseOnFailed};
ghost use Rattle.nt_outside.specs.Source.{SourceState, TakesNext, TakesFront, TakesAtMost};

use crate::fault::{Failed, Refused};
use std::alloc::{AllocError, Global};

/// A text, by the bytes that are left of it.
pub trait Source {
    ghost state: { Self → SourceState };

    /// Puts the next bytes first into `buf`, and says how many they are: none at the end of the text alone.
    /// After `Failed` nothing was taken.
    fn read(&mut self, buf: &mut [u8]) -> Result<usize, Failed>
        requires { 0 < length buf.old }
        ensures { TakesNext (state self.old) (state self.new) buf.new result };
}

/// The most bytes of a text that are read at once.
const PIECE: usize = 1 << 16;

/// A buffer for pieces of a text of which at most so many bytes are read.
fn buffer(alloc: Global, most: usize) -> Result<Vec<u8>, AllocError>
    requires { 0 < most }
    ensures { IfOk result (λ piece. 0 < vec_len piece) }
{
    vec![in alloc; 0u8; most.min(PIECE)]
}

/// The bytes of a text, to its end where they are at most `most`, and `most + 1` of them where it is longer.
pub fn read_front<S: Source>(alloc: Global, source: &mut S, most: usize) -> Result<Vec<u8>, Refused>
    requires { most < 2 ^ 62 }
    ensures front { IfOk result (λ bytes. TakesFront (S.state source.old).left most bytes.items) }
    ensures taken { TakesAtMost (most + 1) (S.state source.old).left (S.state source.new).left }
    ensures answered { ((S.state source.new).faults ≡ (S.state source.old).faults) ⊎ IsErrOf result refused_failed }
    ensures cause { RoseOnFailed (S.state source.old).faults (S.state source.new).faults result }
{
    let mut bytes = Vec::new(alloc);
    let mut piece = buffer(alloc, most + 1)?;
    for _ in 0..=most {
        let wanted = (most + 1 - bytes.len()).min(piece.len());
        let next = &mut piece[..wanted];
        let count = source.read(next)?;
        if count == 0 {
            return Ok(bytes);
        }
        bytes.extend_from_slice(&next[..count])?;
        if bytes.len() > most {
            return Ok(bytes);
        }
    }
    Ok(bytes)
}
