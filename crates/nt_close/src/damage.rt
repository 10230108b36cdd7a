//! Ranges that were handed back after faults, page lists that failed, and filled ranges that are no
//! clusters.

ghost use Rattle.std.specs.Prelude.{◌≡◌, ◌<◌, true, false, length, None, OnOk, IfErr, IfSome};
ghost use Rattle.nt_book.specs.Books.{book_clusters};
ghost use Rattle.nt_close.specs.Damage.{IsUndamaged, IsDamageError};
ghost use Rattle.nt_close.specs.Unpublished.{HasClusterOf, NoneBeforeHas, NoneUnpublished, IsFirstUnpublished};

use crate::error::CloseError;
use nt_book::{Book, RangeState};

/// Whether some cluster has the range of this number.
fn is_cluster(book: &Book, range: u32) -> bool
    ensures yes { result ≡ true → HasClusterOf book.now range }
    ensures no { result ≡ false → NoneBeforeHas book.now range (length (book_clusters book.now)) }
{
    for cluster in 0..book.clusters() {
        if book.range_of(cluster) == range {
            return true;
        }
    }
    false
}

/// The lowest filled range that is no cluster, if there is one. Clusters are ranges of different
/// numbers, so where there are as many of both, as in each book that isn't staged, there is none;
/// else each range is looked for among the clusters.
fn first_unpublished(book: &Book) -> Option<u32>
    ensures some { IfSome result (IsFirstUnpublished book.now) }
    ensures none { result ≡ None → NoneUnpublished book.now }
{
    book.keeps();
    if book.clusters() == book.ranges() {
        return None;
    }
    for range in 0..book.ranges() {
        if book.state(range) == RangeState::Settled && !is_cluster(book, range) {
            return Some(range);
        }
    }
    None
}

/// Refuses a book one of whose ranges is spoiled, with the lowest, or one that is torn, or one of
/// whose filled ranges is no cluster, with the lowest.
pub(crate) fn refuse_damaged(book: &Book) -> Result<(), CloseError>
    ensures ok { OnOk result (IsUndamaged book.now) }
    ensures published { OnOk result (NoneUnpublished book.now) }
    ensures err { IfErr result (IsDamageError book.now) }
{
    for range in 0..book.ranges() {
        if let RangeState::Spoiled { faults } = book.state(range) {
            return Err(CloseError::Spoiled {
                cluster: range,
                faults,
            });
        }
    }
    if let Some((group, faults)) = book.torn() {
        return Err(CloseError::Torn { group, faults });
    }
    if let Some(range) = first_unpublished(book) {
        return Err(CloseError::Unpublished { range });
    }
    Ok(())
}
