//! Footers as bytes.

ghost use Rattle.std.specs.Prelude.{◌≡◌, ◌++◌, ◌<◌, ◌^◌, length, flat_map, OnOk, IfOk};
ghost use Rattle.std.specs.Int.{w32, w64, to_le_bytes};
ghost use Rattle.nt_format.specs.Envelopes.{envelope};
ghost use Rattle.nt_format.specs.Frames.{record_frame, list_frame};
ghost use Rattle.nt_format.specs.Locators.{link};
ghost use Rattle.nt_frame.specs.Writing.{bytes_added};
ghost use Rattle.nt_pagelists.specs.FooterWriting.{group_text, group_texts, extension_text, footer_text};
ghost use Rattle.nt_schema.specs.Whole.{AreWhole};

use crate::sealing::seal;
use nt_format::Link;
use nt_frame::FrameOut;
use nt_pagelists::Group;
use nt_schema::{Part, Schema, write_description};
use std::alloc::{AllocError, Global};

/// The kind of a footer's envelope.
const FOOTER: u16 = 2;

fn put_link(out: &mut FrameOut, to: &Link) -> Result<(), AllocError>
    ensures { OnOk result (out.new ≡ bytes_added (link to.now) out.old) }
{
    out.put_u64le(to.length)?;
    out.put_u32le(to.at.size)?;
    out.put_u64le(to.at.place)?;
    Ok(())
}

fn put_counts(out: &mut FrameOut, group: &Group) -> Result<(), AllocError>
    ensures { OnOk result (out.new ≡ bytes_added (to_le_bytes w64 group.now.first
        ++ (to_le_bytes w64 group.now.span ++ to_le_bytes w32 group.now.clusters)) out.old) }
{
    out.put_u64le(group.first)?;
    out.put_u64le(group.span)?;
    out.put_u32le(group.clusters)?;
    Ok(())
}

fn put_group(out: &mut FrameOut, group: &Group) -> Result<(), AllocError>
    ensures { OnOk result (out.new ≡ bytes_added (group_text group.now) out.old) }
{
    out.begin_record()?;
    put_counts(out, group)?;
    put_link(out, &group.link)?;
    out.finish();
    Ok(())
}

#[tactic(auto, using(crate::proofs::Appended::text_steps))]
fn put_groups(out: &mut FrameOut, groups: &[Group]) -> Result<(), AllocError>
    ensures { OnOk result (out.new ≡ bytes_added (group_texts groups.now) out.old) }
{
    for group in groups {
        put_group(out, group)?;
    }
    Ok(())
}

#[tactic(auto, using(crate::proofs::Appended::list_of))]
fn put_group_list(out: &mut FrameOut, groups: &[Group]) -> Result<(), AllocError>
    requires { length groups.now < 2 ^ 32 }
    ensures { OnOk result (out.new ≡ bytes_added
        (list_frame (length groups.now) (group_texts groups.now)) out.old) }
{
    out.begin_list(groups.len() as u32)?;
    put_groups(out, groups)?;
    out.finish();
    Ok(())
}

#[tactic(auto, unfolding(nt_pagelists::specs::FooterWriting::extension_text))]
/// The rows that do not stand in the header, or nothing where there are none.
fn put_rows(out: &mut FrameOut, schema: &Schema) -> Result<(), AllocError>
    requires { AreWhole schema.now }
    ensures { OnOk result (out.new ≡ bytes_added (extension_text schema.now) out.old) }
{
    if schema.fields() <= schema.header_fields() && schema.columns() <= schema.header_columns() {
        return Ok(());
    }
    write_description(schema, Part::Extension, out)
}

fn put_extension(out: &mut FrameOut, schema: &Schema) -> Result<(), AllocError>
    requires { AreWhole schema.now }
    ensures { OnOk result (out.new ≡ bytes_added
        (record_frame (extension_text schema.now)) out.old) }
{
    out.begin_record()?;
    put_rows(out, schema)?;
    out.finish();
    Ok(())
}

fn put_footer(
    out: &mut FrameOut,
    schema: &Schema,
    groups: &[Group],
    header_sum: u64,
) -> Result<(), AllocError>
    requires few { length groups.now < 2 ^ 32 }
    requires whole { AreWhole schema.now }
    ensures { OnOk result (out.new ≡ bytes_added
        (footer_text header_sum schema.now groups.now) out.old) }
{
    out.put_u64le(0)?; // no feature flags
    out.put_u64le(header_sum)?;
    put_extension(out, schema)?;
    put_group_list(out, groups)?;
    Ok(())
}

#[tactic(auto, using(crate::proofs::Appended::all_of))]
/// The payload of the footer with these groups.
pub(crate) fn footer_payload(
    alloc: Global,
    schema: &Schema,
    groups: &[Group],
    header_sum: u64,
) -> Result<Vec<u8>, AllocError>
    requires few { length groups.now < 2 ^ 32 }
    requires whole { AreWhole schema.now }
    ensures { IfOk result (λ payload. payload.items
        ≡ footer_text header_sum schema.now groups.now) }
{
    let mut out = FrameOut::new(Vec::new(alloc));
    put_footer(&mut out, schema, groups, header_sum)?;
    Ok(out.into_bytes())
}

/// The envelope of the footer with these groups, and with the rows of the schema that do not stand
/// in the header.
pub fn write_footer(
    alloc: Global,
    schema: &Schema,
    groups: &[Group],
    header_sum: u64,
) -> Result<Vec<u8>, AllocError>
    requires few { length groups.now < 2 ^ 32 }
    requires whole { AreWhole schema.now }
    ensures { IfOk result (λ sealed. sealed.items
        ≡ envelope 2 (footer_text header_sum schema.now groups.now)) }
{
    let payload = footer_payload(alloc, schema, groups, header_sum)?;
    seal(alloc, FOOTER, &payload)
}
