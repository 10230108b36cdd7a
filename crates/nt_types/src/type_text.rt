//! The type that a text spells.

ghost use Rattle.std.specs.Prelude.{◌≡◌, []};
ghost use Rattle.nt_types.specs.Views.{shape_view};
ghost use Rattle.nt_types.specs.Reading.{read, start};
ghost use Rattle.nt_lists.specs.Answering.{Answers};
ghost use Rattle.nt_types.specs.FaultViews.{type_fault, or_malformed};

use crate::fault::TypeError;
use crate::reading::Reading;
use crate::shape::Shape;
use crate::word::is_word_byte;
use std::alloc::Global;

pub(crate) fn read_type(alloc: Global, keep: bool, text: &[u8]) -> Result<Shape, TypeError>
    ensures { Answers shape_view type_fault result (or_malformed (read keep start [] text.now)) }
{
    let mut reading = Reading::new(alloc, keep);
    let mut from = 0;
    for (i, byte) in text.iter().enumerate() {
        if is_word_byte(*byte) {
            continue;
        }
        reading.delimit(alloc, &text[from..i], *byte)?;
        from = i + 1;
    }
    reading
        .end(alloc, &text[from..])
        .ok_or(TypeError::Malformed)
}
