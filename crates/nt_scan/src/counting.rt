//! How many elements columns have by the page lists, before any page is read.

ghost use Rattle.std.specs.Prelude.{◌≡◌, ◌<◌, ◌≤◌, ◌^◌, length, IfOk, All};
ghost use Rattle.nt_scan.specs.Leaves.{IsNumberColumn};
ghost use Rattle.nt_scan.specs.Counts.{with_count, added_up, cluster_counts, column_counted, IsFirstTooMany};
ghost use Rattle.nt_scan.specs.Steps.{lower_of};
ghost use Rattle.nt_reader.specs.Outlines.{numbered_cluster};

use nt_reader::Reader;

/// The most elements of a column that are totalled, so that a sum of any 64-bit numbers fits 128 bits with its sign.
pub const MOST_ELEMENTS: u64 = 1 << 60;

/// So many more, or a count that is too large.
fn with_count(count: u64, more: u64) -> Result<u64, u64>
    requires { count ≤ 2 ^ 60 }
    ensures few { IfOk result (λ n. n ≤ 2 ^ 60) }
    ensures count { result ≡ with_count count more }
{
    let sum = count.saturating_add(more);
    if sum <= MOST_ELEMENTS {
        Ok(sum)
    } else {
        Err(sum)
    }
}

/// Adds the counts of a column in a cluster.
fn cluster_counted(reader: &Reader, k: u32, column: u32, before: u64) -> Result<u64, u64>
    requires cluster { k < length reader.now.clusters }
    requires column { column < length reader.now.table.columns }
    requires few { before ≤ 2 ^ 60 }
    ensures few { IfOk result (λ n. n ≤ 2 ^ 60) }
    ensures count { result
        ≡ added_up before (cluster_counts reader.now.table column (numbered_cluster reader.now k)) }
{
    let mut count = match with_count(before, reader.zeros_of(k, column)) {
        Ok(count) => count,
        Err(reached) => return Err(reached),
    };
    for i in 0..reader.pages_of(k, column) {
        match with_count(count, u64::from(reader.count_of(k, column, i))) {
            Ok(more) => count = more,
            Err(reached) => return Err(reached),
        }
    }
    Ok(count)
}

/// The count of a column in all clusters, or its first count that is too large.
fn column_counted(reader: &Reader, column: u32) -> Result<u64, u64>
    requires { column < length reader.now.table.columns }
    ensures { result ≡ column_counted reader.now column }
{
    let mut count = 0;
    for k in 0..reader.clusters() {
        match cluster_counted(reader, k, column, count) {
            Ok(more) => count = more,
            Err(reached) => return Err(reached),
        }
    }
    Ok(count)
}

/// The one with the lower column.
fn lower_of(lowest: Option<(u32, u64)>, other: (u32, u64)) -> (u32, u64)
    ensures { result ≡ lower_of lowest other }
{
    match lowest {
        Some(found) => { if found.0 <= other.0 { found } else { other } }
        None => other,
    }
}

/// The lowest of these columns that has too many elements, and its first count that is too large.
pub fn first_too_many(reader: &Reader, columns: &[u32]) -> Option<(u32, u64)>
    requires { All (λ c. IsNumberColumn reader.now.table c) columns.now }
    ensures { IsFirstTooMany reader.now columns.now result }
{
    let mut lowest = None;
    for column in columns {
        match column_counted(reader, *column) {
            Ok(_) => {}
            Err(reached) => lowest = Some(lower_of(lowest, (*column, reached))),
        }
    }
    lowest
}
