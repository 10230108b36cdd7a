//! Lines that are gathered before they are printed.

ghost use Rattle.std.specs.Prelude.{◌≡◌, ◌<◌, ◌≤◌, ◌∷◌, [], OnOk, IfOk};
ghost use Rattle.std.specs.List.{slice_range};
ghost use Rattle.nt_types.specs.TreeData.{trees_of};
ghost use Rattle.nt_types.specs.TreeViews.{trees_view};
ghost use Rattle.nt_outside.specs.Faults.{RoseOnFailed};
ghost use Rattle.nt_reader.specs.Columns.{given_entries};
ghost use Rattle.nt_show.specs.Ranges.{entry_lines};
ghost use Rattle.nt_show.specs.Gathering.{PrintsSome, GathersPart, OnlyPrints};

use nt_decoded::DecodedCluster;
use nt_event::write_line;
use nt_outside::{Host, Refused, Stream, print_all};
use nt_types::Trees;
use std::alloc::Global;

/// So many bytes wait before they are printed.
const MANY: usize = 1 << 16;

/// Prints all that waits, once it is much.
fn print_many<H: Host>(host: &mut H, waiting: &mut Vec<u8>) -> Result<(), Refused>
    ensures ok { OnOk result (PrintsSome []
        (H.state host.old).world waiting.old.items (H.state host.new).world waiting.new.items) }
    ensures part { GathersPart []
        (H.state host.old).world waiting.old.items (H.state host.new).world }
    ensures cause { RoseOnFailed (H.state host.old).faults (H.state host.new).faults result }
    ensures rest { OnlyPrints (H.state host.old) (H.state host.new) }
{
    if waiting.len() >= MANY {
        print_all(host, Stream::ToOut, waiting)?;
        waiting.clear();
    }
    Ok(())
}

/// Puts the line of trees behind those that wait, and prints them all once they are many.
pub fn put_line<H: Host>(
    alloc: Global,
    host: &mut H,
    waiting: &mut Vec<u8>,
    entry: &Trees,
) -> Result<(), Refused>
    ensures ok { OnOk result (PrintsSome (entry_lines (trees_of (trees_view entry.now) ∷ []))
        (H.state host.old).world waiting.old.items (H.state host.new).world waiting.new.items) }
    ensures part { GathersPart (entry_lines (trees_of (trees_view entry.now) ∷ []))
        (H.state host.old).world waiting.old.items (H.state host.new).world }
    ensures cause { RoseOnFailed (H.state host.old).faults (H.state host.new).faults result }
    ensures rest { OnlyPrints (H.state host.old) (H.state host.new) }
{
    write_line(alloc, entry, waiting)?;
    print_many(host, waiting)?;
    Ok(())
}

/// Puts the lines of entries of a cluster from one on, some of those up to another, behind those that wait, prints them all once they are
/// many, and says which entry comes next.
pub fn put_some<H: Host>(
    alloc: Global,
    host: &mut H,
    waiting: &mut Vec<u8>,
    cluster: &DecodedCluster<'_>,
    part: (u64, u64),
) -> Result<u64, Refused>
    requires { (part.0 < part.1) × (part.1 ≤ cluster.now.entries) }
    ensures ok { IfOk result (λ next. (part.0 < next) × (next ≤ part.1)
        × PrintsSome (entry_lines (slice_range (given_entries cluster.now) part.0 next))
        (H.state host.old).world waiting.old.items (H.state host.new).world waiting.new.items) }
    ensures part { GathersPart (entry_lines (slice_range (given_entries cluster.now) part.0 part.1))
        (H.state host.old).world waiting.old.items (H.state host.new).world }
    ensures cause { RoseOnFailed (H.state host.old).faults (H.state host.new).faults result }
    ensures rest { OnlyPrints (H.state host.old) (H.state host.new) }
{
    let next = cluster.write_entries(alloc, part, MANY, waiting)?;
    print_many(host, waiting)?;
    Ok(next)
}
