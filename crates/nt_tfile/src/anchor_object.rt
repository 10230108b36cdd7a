//! The anchor's object, in its bytes.

ghost use Rattle.std.specs.Prelude.{◌≡◌};
ghost use Rattle.nt_format.specs.Reading.{standing};
ghost use Rattle.nt_container.specs.Anchors.{is_plain, covered_fields, envelopes_at, anchor_in, anchor_from};
ghost use Rattle.nt_tfile.specs.Calls.{ReadsOn, IsReadAs};

use crate::faults::{BAD_ANCHOR, BAD_EPOCH, COMPRESSED, fault, fault_with};
use nt_container::{Anchor, Key};
use nt_num::{Cur, ReadError, Short};

/// The bytes of an anchor's object.
pub const OBJECT_SIZE: u32 = 78;

/// Whether the object is stored as it is, and has an anchor's length.
#[tactic(auto, unfolding(nt_container::specs::Anchors::is_plain))]
pub fn check_plain(key: &Key) -> Result<(), ReadError>
    ensures { IsReadAs (λ u. tt) result (is_plain key.now) }
{
    let header_len = u64::from(key.header_len);
    let len = u64::from(key.len);
    let object_len = u64::from(key.object_len);
    if len != header_len + object_len {
        return Err(fault_with(
            COMPRESSED,
            key.place,
            object_len,
            len.saturating_sub(header_len),
        ));
    }
    if key.object_len != OBJECT_SIZE {
        return Err(fault_with(BAD_ANCHOR, key.place, u64::from(OBJECT_SIZE), object_len));
    }
    Ok(())
}

/// SeekHeader, NBytesHeader, LenHeader, SeekFooter, NBytesFooter and LenFooter.
#[tactic(auto, unfolding(nt_container::specs::Anchors::envelopes_at))]
fn read_envelopes(cur: &mut Cur) -> Result<Anchor, Short>
    ensures { ReadsOn (λ a. a) result cur.new (envelopes_at cur.old) }
{
    let header = cur.u64be()?;
    let header_size = cur.u64be()?;
    let header_len = cur.u64be()?;
    let footer = cur.u64be()?;
    let footer_size = cur.u64be()?;
    let footer_len = cur.u64be()?;
    Ok(Anchor {
        header,
        header_size,
        header_len,
        footer,
        footer_size,
        footer_len,
    })
}

/// The bytes that the checksum covers.
#[tactic(auto, unfolding(nt_container::specs::Anchors::covered_fields))]
fn fields_of<'a>(place: u64, object: &mut Cur<'a>) -> Result<Cur<'a>, ReadError>
    ensures { IsReadAs (λ c. c) result (covered_fields place object.old) }
{
    let Ok(_head) = object.bytes(6) else {
        return Err(fault(BAD_ANCHOR, place));
    };
    let Ok(fields) = object.part(64) else {
        return Err(fault(BAD_ANCHOR, place));
    };
    let Ok(kept) = object.u64be() else {
        return Err(fault(BAD_ANCHOR, place));
    };
    let sum = nt_xxh3::sum(fields.rest());
    if kept != sum {
        return Err(fault_with(BAD_ANCHOR, place, kept, sum));
    }
    Ok(fields)
}

/// The anchor in those bytes.
#[tactic(auto, unfolding(nt_container::specs::Anchors::anchor_in))]
fn anchor_in(place: u64, fields: &mut Cur) -> Result<Anchor, ReadError>
    ensures { IsReadAs (λ a. a) result (anchor_in place fields.old) }
{
    let Ok(epoch) = fields.u16be() else {
        return Err(fault(BAD_ANCHOR, place));
    };
    if epoch != 1 {
        return Err(fault_with(BAD_EPOCH, place, 1, u64::from(epoch)));
    }
    let Ok(_versions) = fields.bytes(6) else {
        return Err(fault(BAD_ANCHOR, place));
    };
    match read_envelopes(fields) {
        Ok(anchor) => Ok(anchor),
        Err(Short) => Err(fault(BAD_ANCHOR, place)),
    }
}

/// The anchor in the object of a key that stands at a place.
#[tactic(auto, unfolding(nt_container::specs::Anchors::anchor_from))]
pub fn anchor_from(place: u64, object: &[u8]) -> Result<Anchor, ReadError>
    ensures { IsReadAs (λ a. a) result (anchor_from place (standing 0 object.now)) }
{
    let mut fields = fields_of(place, &mut Cur::new(object))?;
    anchor_in(place, &mut fields)
}
