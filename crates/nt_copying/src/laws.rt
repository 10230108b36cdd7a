//! The laws of loaded pages that are copied.

ghost use Rattle.std.specs.Prelude.{◌≡◌, ◌-◌, ◌++◌, ℕ, List, length, drop, Some};
ghost use Rattle.nt_types.specs.TreeData.{TreesData};
ghost use Rattle.nt_container.specs.Spelling.{blob_key};
ghost use Rattle.nt_grammar.specs.Table.{Table};
ghost use Rattle.nt_machine.specs.History.{Cluster};
ghost use Rattle.nt_book.specs.declared.meta.ClusterMeta.{ClusterMeta};
ghost use Rattle.nt_pages.specs.Image.{key_room};
ghost use Rattle.nt_pagelists.specs.declared.cluster.ClusterList.{ClusterList};
ghost use Rattle.nt_file_meaning.specs.Holds.{HoldsCluster};
ghost use Rattle.nt_view.specs.Loaded.{Loaded};
ghost use Rattle.nt_listing.specs.Loading.{IsLoadedFrom};
ghost use Rattle.nt_copied.specs.Copies.{Source, ReadAlike, NoneDeferred, IsCopyOf, stored_columns};
ghost use Rattle.nt_copying.specs.Copied.{copied_columns, all_loaded, HaveTheirSums, IsImageOf};

/// The pages that are loaded of a cluster of a file that tells its bytes are copied as they are stored there, and each checksum that was
/// loaded with a page is that of its bytes.
pub fn loaded_pages_are_stored()
    ensures columns { (file : List ℕ) (number : ℕ) (k : ClusterList) (t : Table) (l : Loaded) → IsLoadedFrom (Some file) number k t l
        → copied_columns l 0 (length t.columns) ≡ stored_columns (record { file = file; table = t; list = k }) }
    ensures sums { (file : List ℕ) (number : ℕ) (k : ClusterList) (t : Table) (l : Loaded) → IsLoadedFrom (Some file) number k t l
        → HaveTheirSums (all_loaded l) }
{}

/// The image of such pages, with the key of a place, is a copy of their cluster there: a source, in whatever file, whose schema is read
/// alike.
pub fn keyed_images_are_copies()
    ensures { (t : Table) (s : Source) (entries : List TreesData) (number : ℕ) (l : Loaded) (c : Cluster ClusterMeta) (bytes : List ℕ)
        → ReadAlike t s.table → NoneDeferred s.table.columns → HoldsCluster s.file s.table s.list entries
        → IsLoadedFrom (Some s.file) number s.list s.table l → IsImageOf s.table s.list.entries l bytes c.meta
        → IsCopyOf t s entries c (blob_key (length bytes - key_room) c.start ++ drop key_room bytes) }
{}
