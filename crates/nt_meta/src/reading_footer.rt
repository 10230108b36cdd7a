//! The payload of a footer.

ghost use Rattle.std.specs.Prelude.{◌≡◌};
ghost use Rattle.nt_format.specs.Reading.{standing};
ghost use Rattle.nt_lists.specs.Answering.{Answers};
ghost use Rattle.nt_meta.specs.Defects.{defect_of};
ghost use Rattle.nt_pagelists.specs.Footers.{extension_at, footer_at};

use crate::descriptions::{read_feature_flags, read_rows};
use crate::error::MetaError;
use crate::reading_groups::read_groups;
use crate::reading_list::read_header_sum;
use nt_frame::read_record;
use nt_num::Cur;
use nt_pagelists::Groups;
use nt_schema::{Part, Schema};
use std::alloc::Global;

#[tactic(auto, unfolding(nt_pagelists::specs::Footers::extension_at))]
fn read_extension(cur: &mut Cur, schema: &mut Schema) -> Result<(), MetaError>
    ensures { Answers (λ _. (schema.new, cur.new)) defect_of result
        (extension_at schema.old cur.old) }
{
    let mut inside = read_record(cur)?;
    if inside.left() != 0 {
        read_rows(&mut inside, schema, Part::Extension)?;
    }
    Ok(())
}

/// Reads the payload of a footer, and adds the rows of its extension to the schema. After a refusal
/// the schema is not to be used again.
#[tactic(auto, unfolding(nt_pagelists::specs::Footers::footer_at))]
pub fn read_footer(
    alloc: Global,
    payload: &[u8],
    header_sum: u64,
    schema: &mut Schema,
) -> Result<Groups, MetaError>
    ensures { Answers (λ groups. (schema.new, groups)) defect_of result
        (footer_at header_sum schema.old (standing 0 payload.now)) }
{
    let mut cur = Cur::new(payload);
    read_feature_flags(&mut cur)?;
    read_header_sum(&mut cur, header_sum)?;
    read_extension(&mut cur, schema)?;
    let mut groups = Vec::new(alloc);
    read_groups(&mut cur, &mut groups)?;
    Ok(Groups::from_vec(groups))
}
