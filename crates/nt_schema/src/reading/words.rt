//! Numbers and strings of a description.

ghost use Rattle.std.specs.Prelude.{◌≡◌, ◌<◌, ◌^◌, length, IfOk};
ghost use Rattle.std.specs.Int.{w16, w32, w64};
ghost use Rattle.nt_num.specs.Cursor.{little};
ghost use Rattle.nt_format.specs.Strings.{string_at};
ghost use Rattle.nt_format.specs.Reading.{placed};
ghost use Rattle.nt_lists.specs.Answering.{Answers};
ghost use Rattle.nt_schema.specs.Reading.{fault_of};

use crate::description_error::DescriptionError;
use nt_num::Cur;

pub(crate) fn read_u16(cur: &mut Cur) -> Result<u16, DescriptionError>
    ensures { Answers (λ n. (n, cur.new)) fault_of result (placed (little w16 cur.old)) }
{
    let fault = DescriptionError::BadFrame { at: cur.place() };
    cur.u16le().map_err(|_| fault)
}

pub(crate) fn read_u32(cur: &mut Cur) -> Result<u32, DescriptionError>
    ensures { Answers (λ n. (n, cur.new)) fault_of result (placed (little w32 cur.old)) }
{
    let fault = DescriptionError::BadFrame { at: cur.place() };
    cur.u32le().map_err(|_| fault)
}

pub(crate) fn read_u64(cur: &mut Cur) -> Result<u64, DescriptionError>
    ensures { Answers (λ n. (n, cur.new)) fault_of result (placed (little w64 cur.old)) }
{
    let fault = DescriptionError::BadFrame { at: cur.place() };
    cur.u64le().map_err(|_| fault)
}

#[tactic(auto, unfolding(nt_format::specs::Strings::string_at))]
pub(crate) fn read_text<'a>(cur: &mut Cur<'a>) -> Result<&'a [u8], DescriptionError>
    ensures told { Answers (λ text. (text.now, cur.new)) fault_of result
        (placed (string_at cur.old)) }
    ensures short { IfOk result (λ text. length text.now < 2 ^ 32) }
{
    let fault = DescriptionError::BadFrame { at: cur.place() };
    let size = cur.u32le().map_err(|_| fault)?;
    cur.bytes(size as usize).map_err(|_| fault)
}
