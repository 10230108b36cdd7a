//! Values, and whether they have a shape.

use nt_types::{Shape, Shapes, Tree, fits};
use std::alloc::{AllocError, Global};

/// A tag, a number, and whether a choice of two bytes takes this number under that tag.
const PICKS: [(u32, i128, bool); 5] = [
    (0, 1, false),
    (1, 255, true),
    (2, 256, false),
    (2, -1, false),
    (3, 1, false),
];

/// Whether a choice takes these and no others.
fn a_tag_names_an_alternative(alloc: Global) -> Result<bool, AllocError> {
    let shapes = vec![in alloc; Shape::Byte, Shape::Char]?;
    let shape = Shape::Choice(Shapes::from_vec(shapes));
    for (tag, number, is_taken) in PICKS {
        let value = Box::new(alloc, Tree::Num(number))?;
        if fits(&Tree::Pick { tag, value }, &shape) != is_taken {
            return Ok(false);
        }
    }
    Ok(true)
}

#[test]
fn trees(rt: HostRuntime) {
    assert!(rt; a_tag_names_an_alternative(rt.alloc()) == Ok(true));
}
