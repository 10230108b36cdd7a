//! The pages of a cluster lie where they are said to lie, and are what a book asks.

ghost use Rattle.std.specs.Prelude.{◌≡◌, ◌*◌, ◌<◌, ◌≤◌, ℕ, List, length, map};
ghost use Rattle.nt_column.specs.Column.{Column, elements_at};
ghost use Rattle.nt_book.specs.Pages.{IsPaged};
ghost use Rattle.nt_book.specs.Ranges.{max_page};
ghost use Rattle.nt_pages.specs.Image.{image, payload};
ghost use Rattle.nt_pages.specs.Metas.{cluster_meta, column_metas, stored_at, stored_pages};

/// At the place of each page lie its bytes, and behind them their checksum.
pub fn pages_lie_where_said()
    ensures { (page : ℕ) (cs : List Column)
        → map (map (stored_at (payload page cs))) (column_metas page 0 cs) ≡ stored_pages page cs }
{}

/// What is kept of a cluster is what a book asks of it: a list of pages for each column, pages that
/// lie in it, and a bit at least for each of its entries, where a column has as many elements.
pub fn clusters_are_paged()
    ensures paged { (page context entries : ℕ) (cs : List Column) → page ≤ max_page
        → entries ≤ 8 * length (image page cs) → IsPaged (cluster_meta page context entries cs) }
    ensures lists { (page context entries : ℕ) (cs : List Column)
        → length (cluster_meta page context entries cs).pages ≡ length cs }
    ensures bits { (page k : ℕ) (cs : List Column) → 0 < page
        → length (elements_at cs k) ≤ 8 * length (image page cs) }
{}
