//! What is chosen of a file.

ghost use Rattle.std.specs.Prelude.{◌≡◌};
ghost use Rattle.nt_types.specs.Views.{members_view};
ghost use Rattle.nt_skim.specs.Select.{selection_of};

use nt_types::{Bytes, Fields};

/// The number at a place of an entry lies from the least to the greatest, these included.
#[derive(Clone, Copy, Debug, PartialEq, Eq)]
pub struct PlaceTest {
    pub place: u32,
    pub least: i128,
    pub greatest: i128,
}

/// The number in the field of this name lies from the least to the greatest, these included.
#[derive(Drop)]
pub struct Test {
    pub name: Bytes,
    pub least: i128,
    pub greatest: i128,
}

/// Which trees of an entry are chosen, in this order, and of which entries; and the fields that the
/// chosen trees fit. What contracts see of it is `selection_of`.
#[derive(Drop)]
pub struct SkimPlan {
    pub(crate) places: Vec<u32>,
    pub(crate) test: Option<PlaceTest>,
    fields: Fields,
}

impl SkimPlan {
    /// The trees at these places, of the entries that pass the test.
    pub fn new(places: Vec<u32>, test: Option<PlaceTest>, fields: Fields) -> SkimPlan
        ensures { selection_of result
            ≡ record { places = places.items; test = test; fields = members_view fields } }
    {
        SkimPlan {
            places,
            test,
            fields,
        }
    }

    /// The fields that the chosen trees fit, one by one.
    pub fn fields(&self) -> &Fields
        ensures { members_view result.now ≡ (selection_of self.now).fields }
    {
        &self.fields
    }
}
