//! The steps by which a file is begun and closed. Its first byte is 0 until all the rest stays.

ghost use Rattle.std.specs.Prelude.{◌≡◌, ◌+◌, [], length, OnOk, OnErr};
ghost use Rattle.nt_outside.specs.Faults.{HasCause};
ghost use Rattle.nt_outside.specs.Held.{BecomesSome};
ghost use Rattle.nt_close.specs.Steps.{HasRoomToBegin, IsBegunWith, IsBegunPartly, HasRoomToEnd, IsEndedWith, IsClosedPartly};

use nt_outside::{Disk, Failed};

/// The first byte of a finished file.
const FIRST: &[u8] = b"r";

/// Writes the head of a file, with 0 for its first byte, and its header blob, and makes sure that
/// they stay.
pub fn write_begin<D: Disk>(disk: &mut D, head: &[u8], blob: &[u8]) -> Result<(), Failed>
    requires { HasRoomToBegin (D.state disk.old) (length head.now + length blob.now) }
    ensures ok { OnOk result (IsBegunWith head.now blob.now (D.state disk.old) (D.state disk.new)) }
    ensures cut { OnErr result (BecomesSome (D.state disk.old).held (D.state disk.new).held
        (IsBegunPartly head.now blob.now)) }
    ensures out { (D.state disk.new).out ≡ (D.state disk.old).out }
    ensures cause { HasCause (D.state disk.old).faults (D.state disk.new).faults result }
{
    disk.append(head)?;
    disk.append(blob)?;
    disk.sync()?; // the file is begun
    Ok(())
}

/// Writes what stands behind the clusters and what stands behind the first byte, and that byte once
/// all the rest stays.
#[tactic(auto, using(crate::proofs::Apart::nothing_out))]
pub fn write_end<D: Disk>(disk: &mut D, tail: &[u8], front: &[u8]) -> Result<(), Failed>
    requires { HasRoomToEnd (D.state disk.old) (length tail.now) (length front.now) }
    ensures ok { OnOk result (IsEndedWith tail.now front.now (D.state disk.old)
        (D.state disk.new)) }
    ensures cut { OnErr result (BecomesSome (D.state disk.old).held (D.state disk.new).held
        (IsClosedPartly tail.now front.now)) }
    ensures out { (D.state disk.new).out ≡ [] }
    ensures cause { HasCause (D.state disk.old).faults (D.state disk.new).faults result }
{
    disk.append(tail)?;
    disk.write_at(1, front)?;
    disk.sync()?; // all but the first byte stays
    disk.write_at(0, FIRST)?;
    disk.sync()?; // and now that byte too
    Ok(())
}
