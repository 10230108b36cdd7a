//! Words of the container: places and strings.

ghost use Rattle.std.specs.Prelude.{◌≡◌, ◌+◌, length};
ghost use Rattle.nt_container.specs.Words.{place_at, tstring_at};
ghost use Rattle.nt_tfile.specs.Calls.{ReadsOn};

use nt_num::{Cur, Short};

/// A place of 8 or 4 bytes.
#[tactic(auto, unfolding(nt_container::specs::Words::place_at))]
pub fn read_place(cur: &mut Cur, wide: bool) -> Result<u64, Short>
    ensures told { ReadsOn (λ n. n) result cur.new (place_at wide cur.old) }
    ensures end { cur.new.place + length cur.new.left ≡ cur.old.place + length cur.old.left }
{
    if wide {
        cur.u64be()
    } else {
        Ok(u64::from(cur.u32be()?))
    }
}

/// A string of either form.
#[tactic(auto, unfolding(nt_container::specs::Words::tstring_at))]
pub fn read_tstring<'a>(cur: &mut Cur<'a>) -> Result<&'a [u8], Short>
    ensures told { ReadsOn (λ b. b.now) result cur.new (tstring_at cur.old) }
    ensures end { cur.new.place + length cur.new.left ≡ cur.old.place + length cur.old.left }
{
    let byte = cur.u8()?;
    let size = if byte == 255 {
        cur.u32be()?
    } else {
        u32::from(byte)
    };
    cur.bytes(size as usize)
}
