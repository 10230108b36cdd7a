//! Some trees of an entry of a cluster that was decoded, and single numbers of it.

ghost use Rattle.std.specs.Prelude.{◌≡◌, ◌<◌, ℕ, true, slice_index_or, IfOk};
ghost use Rattle.nt_plans.specs.Plan.{plans_of};
ghost use Rattle.nt_plans.specs.PlanViews.{plans_view};
ghost use Rattle.nt_plans.specs.Place.{open_plans};
ghost use Rattle.nt_trees.specs.TreeAt.{each_at};
ghost use Rattle.nt_join.specs.Readable.{ReadableEach};
ghost use Rattle.nt_file_meaning.specs.Clusters.{columns_by_id};
ghost use Rattle.nt_types.specs.TreeData.{trees_of, no_trees};
ghost use Rattle.nt_types.specs.TreeViews.{trees_view};
ghost use Rattle.nt_trees.specs.Fits.{fits_entry};
ghost use Rattle.nt_join.specs.Chosen.{tree_in, chosen, number_in};
ghost use Rattle.nt_reader.specs.Columns.{given_entries};

use crate::cluster::DecodedCluster;
use nt_fitting::entries_fit_their_plans;
use nt_join::{chosen_by, number_by};
use nt_plans::{Plans, columns_have_types};
use nt_trees::plans_take_what_fits;
use nt_types::Trees;
use std::alloc::{AllocError, Global};

impl<'a> DecodedCluster<'a> {
    /// The plans of the open fields at the top level, in order: by these its columns are read.
    pub fn plans(&self) -> &Plans
        ensures { plans_of (plans_view result.now) ≡ open_plans self.now.table }
    {
        self.schema.plans()
    }

    /// Its columns can be read by its plans at each entry, and what is read there are the entry's trees. It is a
    /// law, and does nothing.
    pub fn readable(&self)
        ensures readable { (i : ℕ) → i < self.now.entries
            → ReadableEach (open_plans self.now.table) (columns_by_id self.now.columns) i }
        ensures given { (i : ℕ) → i < self.now.entries
            → slice_index_or (given_entries self.now) i no_trees
            ≡ each_at (open_plans self.now.table) (columns_by_id self.now.columns) i }
    {
        let _entries = self.entries;
    }

    /// Each entry fits the open fields of the schema. It is a law, and does nothing.
    pub fn entries_fit(&self)
        ensures { (i : ℕ) → i < self.now.entries
            → fits_entry self.now.table (slice_index_or (given_entries self.now) i no_trees) ≡ true }
    {
        let _entries = self.entries;
        columns_have_types();
        plans_take_what_fits();
        entries_fit_their_plans();
    }

    /// The number that stands at a place of an entry, if one does: the place counts the open fields
    /// at the top level. It takes no memory.
    pub fn number(&self, place: u32, i: u64) -> Option<i128>
        requires { i < self.now.entries }
        ensures { result
            ≡ number_in (tree_in (slice_index_or (given_entries self.now) i no_trees) place) }
    {
        number_by(&self.columns, self.schema.plans(), place, i)
    }

    /// The trees at some places of an entry, in the order of the places. No other tree is made.
    pub fn chosen(&self, alloc: Global, places: &[u32], i: u64) -> Result<Trees, AllocError>
        requires { i < self.now.entries }
        ensures { IfOk result (λ ts. trees_of (trees_view ts)
            ≡ chosen places.now (slice_index_or (given_entries self.now) i no_trees)) }
    {
        chosen_by(alloc, &self.columns, self.schema.plans(), places, i)
    }
}
