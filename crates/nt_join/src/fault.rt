//! What is wrong with the values of columns.

ghost use Rattle.std.specs.Prelude.{◌≡◌, ◌==◌, option_map, if◌then◌else◌, nat_lt, Some, None};
ghost use Rattle.nt_trees.specs.Faults.{lower};
ghost use Rattle.nt_join.specs.Spots.{spot_of};

/// An element that isn't as it must be; of a column that hasn't the length that it must have, its
/// length.
#[derive(Clone, Copy)]
pub struct ValueFault {
    pub column: u32,
    pub element: u64,
}

/// Of two faults the one in the lower column.
pub fn lower(one: Option<ValueFault>, other: Option<ValueFault>) -> Option<ValueFault>
    ensures { option_map spot_of result ≡ lower (option_map spot_of one) (option_map spot_of other) }
{
    match (one, other) {
        (Some(f), Some(g)) => Some(if g.column < f.column { g } else { f }),
        (Some(f), None) => Some(f),
        (None, _) => other,
    }
}

/// The fault of a column with so many elements of those that are needed, where all before `first`
/// are as they must be.
pub fn first_in(column: u32, len: u64, needed: u64, first: u64) -> Option<ValueFault>
    ensures { option_map spot_of result ≡ (if len == needed
        then (if nat_lt first len then Some (column, first) else None) else Some (column, len)) }
{
    if len != needed {
        return Some(ValueFault {
            column,
            element: len,
        });
    }
    if first < len {
        Some(ValueFault {
            column,
            element: first,
        })
    } else {
        None
    }
}
