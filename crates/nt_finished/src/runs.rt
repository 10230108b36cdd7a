//! The law of the files that runs of the machine leave.

ghost use Rattle.std.specs.Prelude.{◌≡◌, ℕ, true, List};
ghost use Rattle.nt_types.specs.TreeData.{TreesData};
ghost use Rattle.nt_grammar.specs.Table.{Table};
ghost use Rattle.nt_grammar.specs.ReadingBack.{IsDescribed};
ghost use Rattle.nt_machine.specs.Deal.{UsesFor, IsDeal};
ghost use Rattle.nt_machine.specs.Machine.{ContextStep, IsRun, state_after, contexts_of};
ghost use Rattle.nt_file_meaning.specs.Files.{Means};
ghost use Rattle.nt_layout.specs.Headers.{clusters_place};
ghost use Rattle.nt_layout.specs.Laid.{Measures, AreMeasures, IsLaid};
ghost use Rattle.nt_finished.specs.RunFiles.{HoldsRun};

use crate::laws::finished_files_mean_their_entries;

/// Whatever steps contexts take in a run that closes, the order of its clusters uses all their
/// chunks, those of each context together where clusters are staged, and the file that holds its
/// ranges is laid out for these chunks, dealt out in that order, and means them.
pub fn closed_runs_mean_their_chunks()
    ensures { (t : Table) (m : Measures) (chunks : List (List (List TreesData)))
        (blob : ℕ → ℕ → ℕ → List ℕ) (steps : List ContextStep) (file : List ℕ)
        → IsDescribed t → AreMeasures m → IsRun m.staged chunks blob (clusters_place t) steps
        → (state_after m.staged blob (clusters_place t) steps).closed ≡ true
        → HoldsRun t m chunks blob file (state_after m.staged blob (clusters_place t) steps)
        → (dealt : List (List TreesData))
        × UsesFor m.staged (contexts_of (state_after m.staged blob (clusters_place t) steps).order) chunks
        × IsDeal chunks (contexts_of (state_after m.staged blob (clusters_place t) steps).order) dealt
        × IsLaid file t dealt m × Means file t dealt }
{
    finished_files_mean_their_entries();
}
