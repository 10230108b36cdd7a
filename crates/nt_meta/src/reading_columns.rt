//! The columns of a cluster.

ghost use Rattle.std.specs.Prelude.{◌≡◌, ◌≤◌, [], length, vec_len, OnOk};
ghost use Rattle.nt_lists.specs.Answering.{Answers};
ghost use Rattle.nt_meta.specs.Defects.{defect_of};
ghost use Rattle.nt_pagelists.specs.Pages.{element_offset_at, column_list_at, column_lists_on};

use crate::error::MetaError;
use crate::faults::fault_in;
use crate::judging::{Listed, judge};
use crate::known::KnownColumns;
use crate::reading_pages::push_items;
use crate::words::{read_u32, read_u64};
use nt_frame::read_list;
use nt_num::Cur;
use nt_pagelists::{ClusterSummary, ColumnList, KnownColumn, PageItems};
use std::alloc::Global;

/// The code of what a page list can't say.
const BAD_PAGE_LIST: u8 = 19;

/// A word of 64 bits from here on is negative in two's complement.
const NEGATIVE: u64 = 1 << 63;

#[tactic(auto, unfolding(nt_pagelists::specs::Pages::element_offset_at))]
fn read_offset(
    cur: &mut Cur,
    cluster: &ClusterSummary,
    id: u32,
    column: &KnownColumn,
    frame: usize,
) -> Result<u64, MetaError>
    ensures { Answers (λ n. (n, cur.new)) defect_of result
        (element_offset_at cluster.now id column.now frame cur.old) }
{
    let word = read_u64(cur)?;
    if word < NEGATIVE {
        read_u32(cur)?; // the compression setting
    } else if column.is_open {
        return Err(MetaError::Defect(fault_in(BAD_PAGE_LIST, frame, cluster.number, id)));
    }
    Ok(word)
}

#[tactic(auto, unfolding(nt_pagelists::specs::Pages::column_list_at))]
fn read_column(
    alloc: Global,
    cur: &mut Cur,
    cluster: &ClusterSummary,
    id: u32,
    column: &KnownColumn,
    before: u64,
) -> Result<ColumnList, MetaError>
    ensures { Answers (λ list. (list, cur.new)) defect_of result
        (column_list_at cluster.now id column.now before cur.old) }
{
    let frame = cur.place();
    let (count, mut inside) = read_list(cur)?;
    let mut pages = Vec::new(alloc);
    let elements = push_items(&mut inside, cluster.number, id, count, &mut pages)?;
    let offset = read_offset(&mut inside, cluster, id, column, frame)?;
    let listed = Listed {
        pages: &pages,
        elements,
        offset,
    };
    judge(cluster, id, column, before, frame, &listed).map_err(MetaError::Defect)?;
    Ok(ColumnList {
        inner: frame as u64,
        offset: offset.cast_signed(),
        pages: PageItems::from_vec(pages),
    })
}

#[tactic(auto, using(crate::proofs::ColumnSteps::column_steps))]
/// Reads so many columns, each with its pages. So many elements of each column come before them.
pub(crate) fn push_columns(
    cur: &mut Cur,
    cluster: &ClusterSummary,
    columns: &KnownColumns,
    elements: &[u64],
    count: u32,
    lists: &mut Vec<ColumnList>,
) -> Result<(), MetaError>
    requires none { lists.old.items ≡ [] }
    requires same { length elements.now ≡ length columns.now }
    requires few { count ≤ length columns.now }
    ensures told { Answers (λ _. (lists.new.items, cur.new)) defect_of result
        (column_lists_on cluster.now columns.now elements.now count [] cur.old) }
    ensures few { OnOk result (vec_len lists.new ≤ length columns.now) }
{
    let alloc = *lists.allocator();
    for id in 0..count {
        let column = columns.column(id);
        let before = elements[id as usize];
        let list = read_column(alloc, cur, cluster, id, &column, before)?;
        lists.push(list)?;
    }
    Ok(())
}
