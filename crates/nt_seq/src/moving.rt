//! Entries that are gathered from other columns.

ghost use Rattle.std.specs.Prelude.{◌≡◌, true, OnOk, OnErr};
ghost use Rattle.nt_plans.specs.Plan.{plans_of};
ghost use Rattle.nt_plans.specs.PlanViews.{plans_view};
ghost use Rattle.nt_trees.specs.Fits.{fits_entry};
ghost use Rattle.nt_join.specs.Readable.{ReadableEach};
ghost use Rattle.nt_moving.specs.Moved.{chosen_at};
ghost use Rattle.nt_seq.specs.Writer.{HasEntryRoom, GathersEntry};

use crate::writer::SeqWriter;
use nt_column::Columns;
use nt_moving::move_chosen;
use nt_outside::Disk;
use nt_plans::{Plans, columns_have_types};
use std::alloc::AllocError;

impl<D: Disk> SeqWriter<D> {
    /// Gathers what is chosen of an entry of other columns, which have these plans: its values at some
    /// places, as `fill` gathers their trees. No tree is made. Without memory nothing changes.
    pub fn fill_from<C: Columns>(
        &mut self,
        from: &C,
        plans: &Plans,
        places: &[u32],
        i: u64,
    ) -> Result<(), AllocError>
        requires room { HasEntryRoom self.old }
        requires readable { ReadableEach (plans_of (plans_view plans.now)) (C.Columns.elements from.now) i }
        requires fits { fits_entry self.old.table
            (chosen_at (plans_of (plans_view plans.now)) (C.Columns.elements from.now) places.now i) ≡ true }
        ensures ok { OnOk result (GathersEntry
            (chosen_at (plans_of (plans_view plans.now)) (C.Columns.elements from.now) places.now i)
            self.old self.new) }
        ensures err { OnErr result (self.new ≡ self.old) }
    {
        columns_have_types();
        self.direct.forget();
        move_chosen(from, plans, places, i, &self.schema, &mut self.columns)?;
        self.columns.in_range();
        self.entries += 1;
        Ok(())
    }
}
