//! The summaries of a group's clusters.

ghost use Rattle.std.specs.Prelude.{◌≡◌, ◌+◌, ◌<◌, ◌^◌, [], IfOk};
ghost use Rattle.nt_lists.specs.Answering.{Answers};
ghost use Rattle.nt_meta.specs.Defects.{defect_of};
ghost use Rattle.nt_pagelists.specs.Clusters.{first_entry_at, entry_count_at, summary_at, summaries_on, summaries_at};

use crate::error::MetaError;
use crate::faults::{fault, fault_in};
use crate::words::read_u64;
use nt_frame::{read_list, read_record};
use nt_num::Cur;
use nt_pagelists::{ClusterSummary, Group};

/// The code of what a cluster group doesn't have.
const BAD_GROUP: u8 = 17;

/// The code of a summary that isn't that of the next cluster.
const BAD_CLUSTER: u8 = 18;

/// The flags of a cluster stand from this bit on.
const FLAGS: u64 = 1 << 56;

#[tactic(auto, unfolding(nt_pagelists::specs::Clusters::first_entry_at))]
fn read_first(cur: &mut Cur, number: u32, entries: u128, frame: usize) -> Result<u64, MetaError>
    ensures { Answers (λ n. (n, cur.new)) defect_of result
        (first_entry_at number entries frame cur.old) }
{
    let word = read_u64(cur)?;
    if u128::from(word) != entries {
        return Err(MetaError::Defect(fault_in(BAD_CLUSTER, frame, number, 0)));
    }
    Ok(word)
}

#[tactic(auto, unfolding(nt_pagelists::specs::Clusters::entry_count_at))]
fn read_entries(cur: &mut Cur, number: u32, frame: usize) -> Result<u64, MetaError>
    ensures told { Answers (λ n. (n, cur.new)) defect_of result
        (entry_count_at number frame cur.old) }
    ensures few { IfOk result (λ n. n < 2 ^ 56) }
{
    let word = read_u64(cur)?;
    if word >= FLAGS {
        return Err(MetaError::Defect(fault_in(BAD_CLUSTER, frame, number, 0)));
    }
    Ok(word)
}

#[tactic(auto, unfolding(nt_pagelists::specs::Clusters::summary_at))]
fn read_summary(cur: &mut Cur, number: u32, entries: u128) -> Result<ClusterSummary, MetaError>
    ensures told { Answers (λ k. (k, cur.new)) defect_of result
        (summary_at number entries cur.old) }
    ensures few { IfOk result (λ k. k.entries < 2 ^ 56) }
{
    let frame = cur.place();
    let mut inside = read_record(cur)?;
    let first = read_first(&mut inside, number, entries, frame)?;
    let entries = read_entries(&mut inside, number, frame)?;
    Ok(ClusterSummary {
        number,
        first,
        entries,
    })
}

#[tactic(auto, using(crate::proofs::SummarySteps::summary_steps))]
/// Reads so many summaries, and gives the number of entries with theirs.
fn push_summaries(
    cur: &mut Cur,
    number: u32,
    entries: u64,
    count: u32,
    clusters: &mut Vec<ClusterSummary>,
) -> Result<u128, MetaError>
    requires none { clusters.old.items ≡ [] }
    requires few { number + count < 2 ^ 32 }
    ensures { Answers (λ n. ((clusters.new.items, n), cur.new)) defect_of result
        (summaries_on count number entries [] cur.old) }
{
    let mut so_far = u128::from(entries);
    for i in 0..count {
        let cluster = read_summary(cur, number + i, so_far)?;
        so_far += u128::from(cluster.entries);
        clusters.push(cluster)?;
    }
    Ok(so_far)
}

#[tactic(auto, unfolding(nt_pagelists::specs::Clusters::summaries_at))]
/// Reads the list of the summaries of a group's clusters, of which the first has this number.
pub(crate) fn read_summaries(
    cur: &mut Cur,
    group: &Group,
    number: u32,
    entries: u64,
    clusters: &mut Vec<ClusterSummary>,
) -> Result<(), MetaError>
    requires none { clusters.old.items ≡ [] }
    requires few { number + group.now.clusters < 2 ^ 32 }
    ensures { Answers (λ _. (clusters.new.items, cur.new)) defect_of result
        (summaries_at group.now number entries cur.old) }
{
    let frame = cur.place();
    let (count, mut inside) = read_list(cur)?;
    if count != group.clusters {
        return Err(MetaError::Defect(fault(BAD_GROUP, frame)));
    }
    let so_far = push_summaries(&mut inside, number, entries, count, clusters)?;
    if so_far != u128::from(entries) + u128::from(group.span) {
        return Err(MetaError::Defect(fault(BAD_GROUP, frame)));
    }
    Ok(())
}
