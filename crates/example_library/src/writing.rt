//! A file that is written by contexts.

ghost use Rattle.std.specs.Prelude.{◌≡◌, ◌≤◌, [], length};
ghost use Rattle.nt_types.specs.Views.{members_view};
ghost use Rattle.nt_types.specs.Rules.{AreFields};
ghost use Rattle.nt_outside.specs.Held.{WhereHeld, nothing_held};

use crate::Failure;
use nt_book::Params;
use nt_close::{begin, close};
use nt_contexts::{Ended, Shared, run_contexts};
use nt_outside::{Disk, NoGate, Source};
use nt_types::Fields;
use std::alloc::Global;
use std::sync::Wait;
use std::thread::Threads;

/// Writes a file on an empty disk: a context for each text, two of them beside each other. The texts come back with the disk.
pub fn write_file<R, D, S>(
    rt: &R,
    alloc: Global,
    disk: D,
    fields: &Fields,
    texts: Vec<S>,
    params: &Params,
) -> (D, Vec<S>, Result<(), Failure>)
where
    R: Threads + Wait + Sync,
    D: Disk + Send,
    D::Pen: Send,
    D::Ext: Send,
    S: Source + Send,
    requires fields { AreFields (members_view fields.now) }
    requires empty { WhereHeld (D.state disk).held (λ h. h ≡ nothing_held) }
    requires end { ((D.state disk).end ≡ 0) × ((D.state disk).out ≡ []) }
    requires texts { (1 ≤ length texts.items) × (length texts.items ≤ 64) }
{
    let mut disk = disk;
    let begun = begin(alloc, &mut disk, fields, params);
    let Ok((book, schema)) = begun else {
        return (disk, texts, Err(Failure::Writing));
    };
    let shared = Shared {
        alloc,
        schema: &schema,
        fields,
        params,
        gate: &NoGate,
        workers: 2,
    };
    let done = run_contexts(rt, disk, book, texts, &shared);
    let Ended {
        mut disk,
        book,
        sources: texts,
        ended,
    } = done;
    let closed = match ended {
        Ok(()) => close(alloc, &mut disk, &book, &schema, params).map_err(|_| Failure::Writing),
        Err(_) => Err(Failure::Writing),
    };
    (disk, texts, closed)
}
