//! Where selected entries go.

ghost use Rattle.std.specs.Prelude.{◌≡◌, ◌<◌, true, None, slice_index_or};
ghost use Rattle.nt_types.specs.ShapeData.{parts_of};
ghost use Rattle.nt_types.specs.Fits.{fit_parts};
ghost use Rattle.nt_types.specs.TreeData.{trees_of, no_trees};
ghost use Rattle.nt_types.specs.TreeViews.{trees_view};
ghost use Rattle.nt_join.specs.Chosen.{chosen};
ghost use Rattle.nt_reader.specs.Columns.{given_entries};
ghost use Rattle.nt_skim.specs.Skimming.{SinkState, AnswersPut, AnswersPutFrom};

use crate::error::PutError;
use nt_decoded::DecodedCluster;
use nt_types::Trees;
use std::alloc::Global;

/// Takes entries, one after the other, until it refuses one.
pub trait EntrySink {
    /// Why an entry isn't taken.
    type Fault;

    /// What no put changes. No value of it need be made.
    type Birth;

    ghost state: { Self → SinkState Self.Fault Self.Birth };

    /// Takes an entry; a refusal adds nothing.
    fn put(&mut self, trees: &Trees) -> Result<(), Self::Fault>
        requires fits { fit_parts (parts_of (state self.old).fields) (trees_of (trees_view trees.now)) ≡ true }
        requires going { (state self.old).refused ≡ None }
        ensures { AnswersPut (trees_of (trees_view trees.now)) (state self.old) (state self.new) result };

    /// Takes what is chosen of an entry of a cluster, as `put` takes its trees at these places. Here it is put by
    /// trees: they are made, and put. A sink that needs no trees puts it by elements, in a body of its own.
    fn put_from(
        &mut self,
        alloc: Global,
        cluster: &DecodedCluster<'_>,
        places: &[u32],
        i: u64,
    ) -> Result<(), PutError<Self::Fault>>
        requires there { i < cluster.now.entries }
        requires fits { fit_parts (parts_of (state self.old).fields)
            (chosen places.now (slice_index_or (given_entries cluster.now) i no_trees)) ≡ true }
        requires going { (state self.old).refused ≡ None }
        ensures { AnswersPutFrom
            (chosen places.now (slice_index_or (given_entries cluster.now) i no_trees))
            (state self.old) (state self.new) result }
    {
        match cluster.chosen(alloc, places, i) {
            Ok(trees) => match self.put(&trees) {
                Ok(()) => Ok(()),
                Err(fault) => Err(PutError::Refused(fault)),
            },
            Err(_) => Err(PutError::Memory),
        }
    }
}
