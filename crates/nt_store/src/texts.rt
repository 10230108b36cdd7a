//! The texts that a file is written of.

ghost use Rattle.std.specs.Prelude.{◌≡◌, List, [], ◌∷◌, Some, length, map, IfOk, IfErr, OnOk, OnErr};
ghost use Rattle.nt_types.specs.Views.{members_view};
ghost use Rattle.nt_types.specs.Rules.{AreFields};
ghost use Rattle.nt_outside.specs.World.{World, Text as asked_text, file};
ghost use Rattle.nt_store.specs.Schemas.{TellsFields, TellsSchema};
ghost use Rattle.nt_store.specs.Worlds.{AsksOnly, HasStoreCause, LeavesOut, PutsTexts, AreOpenTexts};
ghost use Rattle.nt_store.specs.Errors.{IsRefusal};

use crate::error::StoreError;
use nt_outside::{Host, read_front};
use nt_types::{Fields, parse_schema};
use std::alloc::Global;

/// The most bytes of a schema text.
const MOST_OF_SCHEMA: usize = 1 << 20;

/// The fields of a schema text.
fn fields_of(alloc: Global, text: &[u8]) -> Result<Fields, StoreError>
    ensures told { TellsFields text.now result }
    ensures rules { IfOk result (λ fields. AreFields (members_view fields)) }
{
    let fields = parse_schema(alloc, text)?;
    Ok(fields)
}

/// Reads the fields of the schema text of this name.
pub fn read_schema<H: Host>(alloc: Global, host: &mut H, name: &str) -> Result<Fields, StoreError>
    ensures asks { AsksOnly (asked_text name.now ∷ []) (H.state host.old) (H.state host.new) result }
    ensures told { (w : World) → (H.state host.old).world ≡ Some w → TellsSchema (file w name.now) result }
    ensures rules { IfOk result (λ fields. AreFields (members_view fields)) }
    ensures cause { HasStoreCause (H.state host.old).faults (H.state host.new).faults result }
    ensures rest { LeavesOut 0 (H.state host.old) (H.state host.new) }
{
    let mut text = host.open_text(name)?;
    let read = read_front(alloc, &mut text, MOST_OF_SCHEMA);
    host.return_text(text);
    let bytes = read?;
    fields_of(alloc, &bytes)
}

/// Gives texts back to the host.
pub(crate) fn return_texts<H: Host>(host: &mut H, texts: Vec<H::Text>)
    ensures { PutsTexts (map H.Text.state texts.items) (H.state host.old) (H.state host.new) }
{
    let mut texts = texts;
    while !texts.is_empty() {
        host.return_text(texts.remove(0));
    }
    texts.destroy_empty();
}

/// Opens the texts of these names, in order. Where one is refused, those before it go back.
pub(crate) fn open_texts<H: Host>(
    alloc: Global,
    host: &mut H,
    names: &[&str],
) -> Result<Vec<H::Text>, StoreError>
    ensures asks { AsksOnly (map asked_text (map (λ name. name.now) names.now))
        (H.state host.old) (H.state host.new) result }
    ensures texts { IfOk result (λ texts. AreOpenTexts (H.state host.old).world (map (λ name. name.now) names.now) (map H.Text.state
        texts.items)) }
    ensures cause { HasStoreCause (H.state host.old).faults (H.state host.new).faults result }
    ensures refused { IfErr result IsRefusal }
    ensures rest { (OnOk result (LeavesOut (length names.now) (H.state host.old) (H.state host.new)))
        × OnErr result (LeavesOut 0 (H.state host.old) (H.state host.new)) }
{
    let mut texts = Vec::with_capacity(alloc, names.len())?;
    for name in names {
        match host.open_text(name) {
            Ok(text) => texts.push_reserved(text),
            Err(refused) => {
                return_texts(host, texts);
                return Err(StoreError::from(refused));
            }
        }
    }
    Ok(texts)
}
