//! The payload of a page list.

ghost use Rattle.std.specs.Prelude.{◌≡◌, ◌+◌, ◌<◌, ◌^◌, length};
ghost use Rattle.nt_format.specs.Reading.{standing};
ghost use Rattle.nt_lists.specs.Answering.{Answers};
ghost use Rattle.nt_meta.specs.Defects.{defect_of};
ghost use Rattle.nt_pagelists.specs.PageLists.{header_sum_at, page_list_at};

use crate::error::MetaError;
use crate::faults::fault_with;
use crate::known::KnownColumns;
use crate::progress::Progress;
use crate::reading_clusters::read_clusters;
use crate::reading_summaries::read_summaries;
use crate::words::read_u64;
use nt_num::Cur;
use nt_pagelists::{ClusterLists, Group};
use std::alloc::Global;

/// The code of the checksum of another header.
const OTHER_HEADER: u8 = 16;

/// Reads the checksum of the header.
#[tactic(auto, unfolding(nt_pagelists::specs::PageLists::header_sum_at))]
pub(crate) fn read_header_sum(cur: &mut Cur, sum: u64) -> Result<u64, MetaError>
    ensures { Answers (λ n. (n, cur.new)) defect_of result (header_sum_at sum cur.old) }
{
    let at = cur.place();
    let word = read_u64(cur)?;
    if word != sum {
        return Err(MetaError::Defect(fault_with(OTHER_HEADER, at, word, sum)));
    }
    Ok(word)
}

/// Reads the payload of the page list of a group, and adds what it has to what was read so far.
/// After a refusal the progress is not to be used again.
#[tactic(auto, unfolding(nt_pagelists::specs::PageLists::page_list_at))]
pub fn read_page_list(
    alloc: Global,
    payload: &[u8],
    header_sum: u64,
    group: &Group,
    columns: &KnownColumns,
    so_far: &mut Progress,
) -> Result<ClusterLists, MetaError>
    requires same { length so_far.old.elements ≡ length columns.now }
    requires clusters { so_far.old.clusters + group.now.clusters < 2 ^ 32 }
    requires entries { so_far.old.entries + group.now.span < 2 ^ 64 }
    ensures { Answers (λ lists. (lists, so_far.new)) defect_of result
        (page_list_at header_sum group.now columns.now so_far.old (standing 0 payload.now)) }
{
    let mut cur = Cur::new(payload);
    read_header_sum(&mut cur, header_sum)?;
    let mut clusters = Vec::new(alloc);
    read_summaries(
        &mut cur,
        group,
        so_far.clusters,
        so_far.entries,
        &mut clusters,
    )?;
    let mut lists = Vec::new(alloc);
    read_clusters(
        &mut cur,
        group,
        &clusters,
        columns,
        &mut so_far.elements,
        &mut lists,
    )?;
    so_far.clusters += group.clusters;
    so_far.entries += group.span;
    Ok(ClusterLists::from_vec(lists))
}
