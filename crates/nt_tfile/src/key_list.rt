//! The list of keys, and the anchor's key in it.

ghost use Rattle.std.specs.Prelude.{◌≡◌, ◌+◌, ◌<◌, ◌^◌, None, length};
ghost use Rattle.nt_format.specs.Reading.{standing};
ghost use Rattle.nt_container.specs.Keys.{keys_on, first_anchor, anchor_key_in};
ghost use Rattle.nt_tfile.specs.Calls.{IsReadAs};

use crate::faults::{BAD_KEY_LIST, NO_NTUPLE, fault};
use crate::keys::read_key;
use nt_container::Key;
use nt_num::{Cur, ReadError};

/// The class of an anchor's object.
const ANCHOR_CLASS: &[u8] = b"ROOT::RNTuple";

/// The first key of an anchor, once there is one.
fn first_of(first: Option<Key>, key: Key, class: &[u8]) -> Option<Key>
    ensures { result ≡ first_anchor first key class.now }
{
    match first {
        Some(first) => Some(first),
        None => {
            if class == ANCHOR_CLASS {
                Some(key)
            } else {
                None
            }
        }
    }
}

/// The first key of an anchor among so many keys, one behind the other, in the list at a place.
#[tactic(auto, using(crate::proofs::Steps::key_steps))]
fn first_key(place: u64, count: u32, cur: &mut Cur) -> Result<Option<Key>, ReadError>
    requires { place + cur.old.place + length cur.old.left < 2 ^ 64 }
    ensures { IsReadAs (λ k. k) result (keys_on place count None cur.old) }
{
    let mut first = None;
    for _ in 0..count {
        let at = place + cur.place() as u64;
        let Ok((key, class)) = read_key(cur) else {
            return Err(fault(BAD_KEY_LIST, at));
        };
        first = first_of(first, key, class);
    }
    Ok(first)
}

/// The anchor's key in the list of keys that stands at a place.
#[tactic(auto, unfolding(nt_container::specs::Keys::anchor_key_in))]
pub fn anchor_key_in(place: u64, list: &[u8]) -> Result<Key, ReadError>
    requires { place + length list.now < 2 ^ 64 }
    ensures { IsReadAs (λ k. k) result (anchor_key_in place (standing 0 list.now)) }
{
    let Ok((own, _class)) = read_key(&mut Cur::new(list)) else {
        return Err(fault(BAD_KEY_LIST, place));
    };
    let mut object = Cur::new(list);
    let Ok(_header) = object.bytes(usize::from(own.header_len)) else {
        return Err(fault(BAD_KEY_LIST, place));
    };
    let Ok(count) = object.u32be() else {
        return Err(fault(BAD_KEY_LIST, place));
    };
    match first_key(place, count, &mut object)? {
        Some(key) => Ok(key),
        None => Err(fault(NO_NTUPLE, place)),
    }
}
