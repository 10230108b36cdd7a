//! A file whose pages are read as they are stored.

ghost use Rattle.nt_tfile.specs.Calls.{Serves};

use nt_outside::ReadAt;
use nt_reader::{ClusterRead, Reader};
use nt_tfile::ReadFailure;
use nt_view::{ClusterBytes, PageView};
use std::alloc::Global;

/// The greatest number of a page, which is lent as it lies, or 0.
fn greatest_of(page: &PageView<'_>) -> u64 {
    let mut greatest = 0;
    for i in 0..page.len() {
        greatest = greatest.max(page.value(i));
    }
    greatest
}

/// The greatest number of a column in the pages of a cluster, or 0.
fn greatest_in(cluster: &ClusterRead<'_>, column: u32) -> u64 {
    let mut greatest = 0;
    for p in 0..cluster.pages() {
        if cluster.page(p).column == column {
            greatest = greatest.max(greatest_of(&cluster.columns().view(p)));
        }
    }
    greatest
}

/// How many clusters a file has, and the greatest number of a column in it. The pages of each cluster are loaded in the memory of those
/// before.
pub fn greatest<F: ReadAt>(
    alloc: Global,
    file: &mut F,
    column: u32,
) -> Result<(u32, u64), ReadFailure>
    ensures file { Serves (F.state file.old) (F.state file.new) result }
{
    let reader = Reader::attach(alloc, file)?;
    let mut greatest = 0;
    let mut kept = ClusterBytes::new(alloc);
    for k in 0..reader.clusters() {
        let cluster = reader.cluster_in(alloc, file, k, kept)?;
        greatest = greatest.max(greatest_in(&cluster, column));
        kept = cluster.into_columns();
    }
    Ok((reader.clusters(), greatest))
}
