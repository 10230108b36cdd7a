//! The cluster groups of a footer.

ghost use Rattle.std.specs.Prelude.{◌≡◌, ◌+◌, ◌<◌, ◌^◌, [], IfOk};
ghost use Rattle.nt_lists.specs.Answering.{Answers};
ghost use Rattle.nt_meta.specs.Defects.{defect_of};
ghost use Rattle.nt_pagelists.specs.ClusterGroups.{minimum_entry_at, entry_span_at, cluster_count_at, group_link_at, group_at, groups_on, groups_at};

use crate::error::MetaError;
use crate::faults::fault;
use crate::words::{read_u32, read_u64};
use nt_format::{Link, Locator};
use nt_frame::{read_list, read_record};
use nt_num::Cur;
use nt_pagelists::Group;

/// The code of what a cluster group doesn't have.
const BAD_GROUP: u8 = 17;

/// The first word of a locator from here on has its top bit set: it is of another type.
const NOT_SIMPLE: u32 = 1 << 31;

#[tactic(auto, unfolding(nt_pagelists::specs::ClusterGroups::minimum_entry_at))]
fn read_minimum(cur: &mut Cur, entries: u64, frame: usize) -> Result<u64, MetaError>
    ensures { Answers (λ n. (n, cur.new)) defect_of result
        (minimum_entry_at entries frame cur.old) }
{
    let word = read_u64(cur)?;
    if word != entries {
        return Err(MetaError::Defect(fault(BAD_GROUP, frame)));
    }
    Ok(word)
}

#[tactic(auto, unfolding(nt_pagelists::specs::ClusterGroups::entry_span_at))]
fn read_span(cur: &mut Cur, entries: u64, frame: usize) -> Result<u64, MetaError>
    ensures told { Answers (λ n. (n, cur.new)) defect_of result
        (entry_span_at entries frame cur.old) }
    ensures few { IfOk result (λ n. entries + n < 2 ^ 64) }
{
    let word = read_u64(cur)?;
    if word > u64::MAX - entries {
        return Err(MetaError::Defect(fault(BAD_GROUP, frame)));
    }
    Ok(word)
}

#[tactic(auto, unfolding(nt_pagelists::specs::ClusterGroups::cluster_count_at))]
fn read_count(cur: &mut Cur, clusters: u32, frame: usize) -> Result<u32, MetaError>
    ensures told { Answers (λ n. (n, cur.new)) defect_of result
        (cluster_count_at clusters frame cur.old) }
    ensures few { IfOk result (λ n. clusters + n < 2 ^ 32) }
{
    let word = read_u32(cur)?;
    if word > u32::MAX - clusters {
        return Err(MetaError::Defect(fault(BAD_GROUP, frame)));
    }
    Ok(word)
}

#[tactic(auto, unfolding(nt_pagelists::specs::ClusterGroups::group_link_at))]
fn read_group_link(cur: &mut Cur, frame: usize) -> Result<Link, MetaError>
    ensures { Answers (λ l. (l, cur.new)) defect_of result (group_link_at frame cur.old) }
{
    let length = read_u64(cur)?;
    let size = read_u32(cur)?;
    if size >= NOT_SIMPLE {
        return Err(MetaError::Defect(fault(BAD_GROUP, frame)));
    }
    let place = read_u64(cur)?;
    Ok(Link {
        length,
        at: Locator { size, place },
    })
}

#[tactic(auto, unfolding(nt_pagelists::specs::ClusterGroups::group_at))]
fn read_group(cur: &mut Cur, entries: u64, clusters: u32) -> Result<Group, MetaError>
    ensures told { Answers (λ g. (g, cur.new)) defect_of result
        (group_at entries clusters cur.old) }
    ensures entries { IfOk result (λ g. entries + g.span < 2 ^ 64) }
    ensures clusters { IfOk result (λ g. clusters + g.clusters < 2 ^ 32) }
{
    let frame = cur.place();
    let mut inside = read_record(cur)?;
    let first = read_minimum(&mut inside, entries, frame)?;
    let span = read_span(&mut inside, entries, frame)?;
    let clusters = read_count(&mut inside, clusters, frame)?;
    let link = read_group_link(&mut inside, frame)?;
    Ok(Group {
        first,
        span,
        clusters,
        link,
    })
}

#[tactic(auto, using(crate::proofs::GroupSteps::group_steps))]
/// Reads so many groups. Nothing is taken on the word of the count.
fn push_groups(cur: &mut Cur, count: u32, groups: &mut Vec<Group>) -> Result<(), MetaError>
    requires { groups.old.items ≡ [] }
    ensures { Answers (λ _. (groups.new.items, cur.new)) defect_of result
        (groups_on count 0 0 [] cur.old) }
{
    let mut entries = 0;
    let mut clusters = 0;
    for _ in 0..count {
        let group = read_group(cur, entries, clusters)?;
        entries += group.span;
        clusters += group.clusters;
        groups.push(group)?;
    }
    Ok(())
}

/// Reads the list of groups.
#[tactic(auto, unfolding(nt_pagelists::specs::ClusterGroups::groups_at))]
pub(crate) fn read_groups(cur: &mut Cur, groups: &mut Vec<Group>) -> Result<(), MetaError>
    requires { groups.old.items ≡ [] }
    ensures { Answers (λ _. (groups.new.items, cur.new)) defect_of result (groups_at cur.old) }
{
    let (count, mut inside) = read_list(cur)?;
    push_groups(&mut inside, count, groups)
}
