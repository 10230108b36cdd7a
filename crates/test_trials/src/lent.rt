//! What a reader lends of the clusters of a file: its pages as they are stored, and texts.

use crate::spelling::add_number;
use nt_column::{Columns, CowSlice};
use nt_lists::Bytes;
use nt_memory::{Calls, MemFile};
use nt_reader::{ClusterRead, Reader};
use nt_view::{ClusterBytes, PageView};
use std::alloc::{AllocError, Global};

/// Which part of each cluster is told.
#[derive(Clone, Copy)]
pub enum Part {
    /// Its pages.
    Pages,
    /// The texts whose ends are in this column, and their characters in the next one.
    Texts(u32),
}

/// Adds bytes in hex.
fn add_hex(alloc: Global, bytes: &[u8], told: &mut Vec<u8>) -> Result<(), AllocError> {
    let text = hex::encode(alloc, bytes)?;
    told.extend_from_slice(text.as_str().as_bytes())
}

/// Adds the values of a page.
fn add_values(alloc: Global, page: &PageView<'_>, told: &mut Vec<u8>) -> Result<(), AllocError> {
    for i in 0..page.len() {
        told.push(if i == 0 { b':' } else { b',' })?;
        add_number(alloc, page.value(i), told)?;
    }
    Ok(())
}

/// Adds the pages of a cluster: of each the id of its column, its values, and its bytes as they are stored.
fn add_pages(
    alloc: Global,
    cluster: &ClusterRead<'_>,
    told: &mut Vec<u8>,
) -> Result<(), AllocError> {
    for i in 0..cluster.pages() {
        told.push(b' ')?;
        add_number(alloc, u64::from(cluster.page(i).column), told)?;
        add_values(alloc, &cluster.columns().view(i), told)?;
        told.push(b'=')?;
        add_hex(alloc, cluster.page_bytes(i), told)?;
    }
    Ok(())
}

/// Adds the texts of columns: whether each is borrowed, and its bytes.
fn add_texts(
    alloc: Global,
    columns: &ClusterBytes,
    ends: u32,
    told: &mut Vec<u8>,
) -> Result<(), AllocError> {
    let characters = ends.saturating_add(1);
    let mut from = 0;
    for i in 0..columns.len(ends) {
        let to = columns.number(ends, i);
        if from <= to && to <= columns.len(characters) {
            let text = columns.text(alloc, characters, from, to)?;
            let kept = match &text {
                CowSlice::Borrowed(_) => b" borrowed=".as_slice(),
                CowSlice::Owned(_) => b" owned=",
            };
            told.extend_from_slice(kept)?;
            add_hex(alloc, text.as_slice(), told)?;
        }
        from = to;
    }
    Ok(())
}

/// Adds a part of each cluster of a file, up to the first fault. Each cluster is read in the memory of the one before.
pub fn add_lent(
    alloc: Global,
    file: &[u8],
    part: Part,
    told: &mut Vec<u8>,
) -> Result<(), AllocError> {
    let bytes = Bytes::from_vec(file.to_vec(alloc)?);
    let mut file = MemFile::new(bytes, Calls::from_vec(Vec::new(alloc)));
    let Ok(reader) = Reader::attach(alloc, &mut file) else {
        return Ok(());
    };
    let mut kept = ClusterBytes::new(alloc);
    for k in 0..reader.clusters() {
        let Ok(cluster) = reader.cluster_in(alloc, &mut file, k, kept) else {
            return Ok(());
        };
        told.extend_from_slice(b" |")?;
        match part {
            Part::Pages => add_pages(alloc, &cluster, told)?,
            Part::Texts(ends) => add_texts(alloc, cluster.columns(), ends, told)?,
        }
        kept = cluster.into_columns();
    }
    Ok(())
}
