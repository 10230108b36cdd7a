//! Schema descriptions, as headers and footers have them.

ghost use Rattle.std.specs.Prelude.{◌≡◌};
ghost use Rattle.nt_grammar.specs.Reading.{description_at};
ghost use Rattle.nt_num.specs.Faults.{fault, with_values};
ghost use Rattle.nt_lists.specs.Answering.{Answers};
ghost use Rattle.nt_meta.specs.Defects.{defect_of};
ghost use Rattle.nt_meta.specs.declared.error.MetaError.TheVariants.{Defect};
ghost use Rattle.nt_pagelists.specs.Footers.{feature_flags_at};

use crate::error::MetaError;
use crate::faults::fault_with;
use crate::words::read_u64;
use nt_num::Cur;
use nt_schema::{DescriptionError, Part, Schema, read_description};

/// The code of what does not lie in what holds it.
const BAD_FRAME: u8 = 12;

/// The code of feature flags that are not known.
const BAD_FLAGS: u8 = 13;

/// The code of a field whose parent comes after it.
const BAD_FIELD: u8 = 14;

/// The code of a column of a field that is not there.
const BAD_COLUMN: u8 = 15;

#[tactic(auto, unfolding(nt_pagelists::specs::Footers::feature_flags_at))]
pub(crate) fn read_feature_flags(cur: &mut Cur) -> Result<u64, MetaError>
    ensures { Answers (λ n. (n, cur.new)) defect_of result (feature_flags_at cur.old) }
{
    let at = cur.place();
    let word = read_u64(cur)?;
    if word != 0 {
        return Err(MetaError::Defect(fault_with(BAD_FLAGS, at, 0, word)));
    }
    Ok(word)
}

fn defect(code: u8, at: usize, kept: u32, found: u32) -> MetaError
    ensures { result ≡ Defect (with_values kept found (fault code at)) }
{
    MetaError::Defect(fault_with(code, at, u64::from(kept), u64::from(found)))
}

/// Reads the rows of a part behind those of the schema.
pub(crate) fn read_rows(cur: &mut Cur, schema: &mut Schema, part: Part) -> Result<(), MetaError>
    ensures { Answers (λ _. (schema.new, cur.new)) defect_of result
        (description_at part schema.old cur.old) }
{
    match read_description(cur, schema, part) {
        Ok(()) => Ok(()),
        Err(DescriptionError::BadFrame { at }) => Err(defect(BAD_FRAME, at, 0, 0)),
        Err(DescriptionError::BadField { at, id, parent }) => Err(defect(
            BAD_FIELD, at, id, parent,
        )),
        Err(DescriptionError::BadColumn { at, count, id }) => Err(defect(
            BAD_COLUMN, at, count, id,
        )),
        Err(DescriptionError::Memory) => Err(MetaError::Memory),
    }
}
