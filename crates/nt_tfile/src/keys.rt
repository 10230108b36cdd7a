//! Keys' headers.

ghost use Rattle.std.specs.Prelude.{◌≡◌, ◌+◌, length};
ghost use Rattle.nt_container.specs.Keys.{sizes_at, key_names_at, key_at};
ghost use Rattle.nt_tfile.specs.Calls.{ReadsOn};

use crate::words::{read_place, read_tstring};
use nt_container::{Key, Sizes};
use nt_num::{Cur, Short};

/// The last version of a key or a directory that has places of 4 bytes.
pub const LAST_NARROW: u16 = 1000;

/// Nbytes, version, ObjLen, Datime, KeyLen and Cycle.
#[tactic(auto, unfolding(nt_container::specs::Keys::sizes_at))]
pub fn read_sizes(cur: &mut Cur) -> Result<Sizes, Short>
    ensures told { ReadsOn (λ s. s) result cur.new (sizes_at cur.old) }
    ensures end { cur.new.place + length cur.new.left ≡ cur.old.place + length cur.old.left }
{
    let len = cur.u32be()?;
    let version = cur.u16be()?;
    let object_len = cur.u32be()?;
    let _time = cur.u32be()?;
    let header_len = cur.u16be()?;
    let _cycle = cur.u16be()?;
    Ok(Sizes {
        len,
        version,
        object_len,
        header_len,
    })
}

/// SeekKey, SeekPdir, class, name and title: the place and the class.
#[tactic(auto, unfolding(nt_container::specs::Keys::key_names_at))]
pub fn read_names<'a>(cur: &mut Cur<'a>, wide: bool) -> Result<(u64, &'a [u8]), Short>
    ensures told { ReadsOn (λ p. (p.0, p.1.now)) result cur.new (key_names_at wide cur.old) }
    ensures end { cur.new.place + length cur.new.left ≡ cur.old.place + length cur.old.left }
{
    let place = read_place(cur, wide)?;
    let _directory = read_place(cur, wide)?;
    let class = read_tstring(cur)?;
    let _name = read_tstring(cur)?;
    let _title = read_tstring(cur)?;
    Ok((place, class))
}

/// A key's header: the key, and the class of its object.
#[tactic(auto, unfolding(nt_container::specs::Keys::key_at))]
pub fn read_key<'a>(cur: &mut Cur<'a>) -> Result<(Key, &'a [u8]), Short>
    ensures told { ReadsOn (λ p. (p.0, p.1.now)) result cur.new (key_at cur.old) }
    ensures end { cur.new.place + length cur.new.left ≡ cur.old.place + length cur.old.left }
{
    let sizes = read_sizes(cur)?;
    let (place, class) = read_names(cur, sizes.version > LAST_NARROW)?;
    Ok((
        Key {
            len: sizes.len,
            object_len: sizes.object_len,
            header_len: sizes.header_len,
            place,
        },
        class,
    ))
}
