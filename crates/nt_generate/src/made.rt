//! The fields of the events that are made, and a text of them for each context.

ghost use Rattle.std.specs.Prelude.{◌≡◌, IfOk, map};
ghost use Rattle.nt_types.specs.Views.{members_view};
ghost use Rattle.nt_draws.specs.Events.{event_fields};
ghost use Rattle.nt_draws.specs.Source.{state_of};
ghost use Rattle.nt_contexts.specs.Contexts.{TellTexts};
ghost use Rattle.nt_generate.specs.Made.{made_texts};

use nt_draws::{EventSource, Making};
use nt_types::{Fields, SchemaError, parse_schema};
use std::alloc::{AllocError, Global};

/// The schema text of the events.
const SCHEMA: &[u8] = b"run u32\nids vec<u32>\ntag string\n";

/// The fields of the events.
pub(crate) fn event_fields(alloc: Global) -> Result<Fields, AllocError>
    ensures { IfOk result (λ fields. members_view fields ≡ event_fields) }
{
    match parse_schema(alloc, SCHEMA) {
        Ok(fields) => Ok(fields),
        Err(SchemaError::Memory) => Err(AllocError),
        Err(SchemaError::Fault(_)) => unreachable!(),
    }
}

/// The event text of each context.
#[tactic(auto, using(crate::proofs::Sources::told_more))]
pub(crate) fn event_sources(alloc: Global, making: &Making) -> Result<Vec<EventSource>, AllocError>
    ensures { IfOk result (λ sources. TellTexts (map state_of sources.items) (made_texts making.now)) }
{
    let mut sources = Vec::with_capacity(alloc, making.contexts as usize)?;
    for context in 0..making.contexts {
        sources.push_reserved(EventSource::new(making.seed + context, making.events));
    }
    Ok(sources)
}
