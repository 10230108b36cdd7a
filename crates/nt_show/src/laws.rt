//! Which clusters of a file are shown.

ghost use Rattle.std.specs.Prelude.{◌≡◌, ◌<◌, [], ℕ, List, length, take, Ok, Err};
ghost use Rattle.nt_num.specs.declared.fault.ReadError.{ReadError};
ghost use Rattle.nt_types.specs.TreeData.{TreesData};
ghost use Rattle.nt_grammar.specs.Table.{Table};
ghost use Rattle.nt_file_meaning.specs.Outlines.{Outline, outline_of};
ghost use Rattle.nt_file_meaning.specs.Files.{entries_from, Means, HasDefect};
ghost use Rattle.nt_reader.specs.Outlines.{entries_in};
ghost use Rattle.nt_show.specs.Listing.{sound_clusters, IsClusterFault};

/// Of a file that means entries all clusters are sound. Where its outline has the first fault there is
/// none; else they are those before the cluster that has it, whose number the fault names.
pub fn sound_clusters_end_at_the_fault()
    ensures whole { (file : List ℕ) (t : Table) (clusters : List (List TreesData)) → Means file t clusters → sound_clusters file ≡ clusters }
    ensures outline { (file : List ℕ) (e : ReadError) → outline_of file ≡ Err e → sound_clusters file ≡ [] }
    ensures cluster { (file : List ℕ) (o : Outline) (e : ReadError) → outline_of file ≡ Ok o → HasDefect file e → IsClusterFault file o e (sound_clusters file) }
{}
