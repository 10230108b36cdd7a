//! Numbers of a payload.

ghost use Rattle.std.specs.Int.{w32, w64};
ghost use Rattle.nt_num.specs.Cursor.{little};
ghost use Rattle.nt_format.specs.Strings.{string_at};
ghost use Rattle.nt_format.specs.Reading.{placed};
ghost use Rattle.nt_lists.specs.Answering.{Answers};
ghost use Rattle.nt_meta.specs.Defects.{defect_of};

use crate::error::MetaError;
use crate::faults::fault;
use nt_num::Cur;

/// The code of what does not lie in what holds it.
const BAD_FRAME: u8 = 12;

pub(crate) fn read_u32(cur: &mut Cur) -> Result<u32, MetaError>
    ensures { Answers (λ n. (n, cur.new)) defect_of result (placed (little w32 cur.old)) }
{
    let lost = MetaError::Defect(fault(BAD_FRAME, cur.place()));
    cur.u32le().map_err(|_| lost)
}

pub(crate) fn read_u64(cur: &mut Cur) -> Result<u64, MetaError>
    ensures { Answers (λ n. (n, cur.new)) defect_of result (placed (little w64 cur.old)) }
{
    let lost = MetaError::Defect(fault(BAD_FRAME, cur.place()));
    cur.u64le().map_err(|_| lost)
}

#[tactic(auto, unfolding(nt_format::specs::Strings::string_at))]
pub(crate) fn read_text<'a>(cur: &mut Cur<'a>) -> Result<&'a [u8], MetaError>
    ensures { Answers (λ text. (text.now, cur.new)) defect_of result (placed (string_at cur.old)) }
{
    let lost = MetaError::Defect(fault(BAD_FRAME, cur.place()));
    let size = cur.u32le().map_err(|_| lost)?;
    cur.bytes(size as usize).map_err(|_| lost)
}
