//! The pages of a column.

ghost use Rattle.std.specs.Prelude.{◌≡◌, [], IfOk};
ghost use Rattle.nt_lists.specs.Answering.{Answers};
ghost use Rattle.nt_meta.specs.Defects.{defect_of};
ghost use Rattle.nt_pagelists.specs.Columns.{paged_elements};
ghost use Rattle.nt_pagelists.specs.Pages.{page_count_at, page_size_at, page_item_at, page_items_on};

use crate::error::MetaError;
use crate::faults::fault_in;
use crate::words::{read_u32, read_u64};
use nt_num::Cur;
use nt_pagelists::PageItem;

/// The code of what a page list can't say.
const BAD_PAGE_LIST: u8 = 19;

/// The least number of elements; in a locator's first word this bit tells another type.
const TOP: u32 = 1 << 31;

#[tactic(auto, unfolding(nt_pagelists::specs::Pages::page_count_at))]
fn read_count(cur: &mut Cur, cluster: u32, column: u32) -> Result<u32, MetaError>
    ensures { Answers (λ n. (n, cur.new)) defect_of result (page_count_at cluster column cur.old) }
{
    let item = cur.place();
    let word = read_u32(cur)?;
    if word == TOP {
        return Err(MetaError::Defect(fault_in(BAD_PAGE_LIST, item, cluster, column)));
    }
    Ok(word)
}

#[tactic(auto, unfolding(nt_pagelists::specs::Pages::page_size_at))]
fn read_size(cur: &mut Cur, cluster: u32, column: u32, item: usize) -> Result<u32, MetaError>
    ensures { Answers (λ n. (n, cur.new)) defect_of result
        (page_size_at cluster column item cur.old) }
{
    let word = read_u32(cur)?;
    if word >= TOP {
        return Err(MetaError::Defect(fault_in(BAD_PAGE_LIST, item, cluster, column)));
    }
    Ok(word)
}

#[tactic(auto, unfolding(nt_pagelists::specs::Pages::page_item_at))]
fn read_item(cur: &mut Cur, cluster: u32, column: u32) -> Result<PageItem, MetaError>
    ensures { Answers (λ page. (page, cur.new)) defect_of result
        (page_item_at cluster column cur.old) }
{
    let item = cur.place();
    let word = read_count(cur, cluster, column)?;
    let size = read_size(cur, cluster, column, item)?;
    let place = read_u64(cur)?;
    let checked = word >= TOP;
    let count = if checked { word.wrapping_neg() } else { word };
    Ok(PageItem {
        count,
        place,
        size,
        checked,
    })
}

#[tactic(auto, using(crate::proofs::PageSteps::page_steps))]
/// Reads so many pages, and gives the number of their elements. Nothing is taken on the word of the
/// count.
pub(crate) fn push_items(
    cur: &mut Cur,
    cluster: u32,
    column: u32,
    count: u32,
    pages: &mut Vec<PageItem>,
) -> Result<u64, MetaError>
    requires { pages.old.items ≡ [] }
    ensures told { Answers (λ _. (pages.new.items, cur.new)) defect_of result
        (page_items_on cluster column count [] cur.old) }
    ensures elements { IfOk result (λ n. n ≡ paged_elements pages.new.items) }
{
    let mut elements = 0;
    for _ in 0..count {
        let page = read_item(cur, cluster, column)?;
        elements += u64::from(page.count);
        pages.push(page)?;
    }
    Ok(elements)
}
