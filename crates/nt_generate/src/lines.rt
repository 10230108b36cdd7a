//! The lines of totals.

ghost use Rattle.std.specs.Prelude.{◌≡◌, ◌++◌, decimal, IfOk, OnOk};
ghost use Rattle.nt_generate.specs.Lines.{total_line, total_lines};

use crate::total::Total;
use itoa::Buffer;
use std::alloc::{AllocError, Global};

/// Puts a word and a number behind a text.
fn put_number(text: &mut Vec<u8>, word: &[u8], number: u64) -> Result<(), AllocError>
    ensures { OnOk result (text.new.items ≡ text.old.items ++ (word.now ++ decimal number)) }
{
    text.extend_from_slice(word)?;
    let mut digits = Buffer::new();
    text.extend_from_slice(digits.format(number).as_bytes())?;
    Ok(())
}

/// Puts the line of a total behind a text.
fn put_total(text: &mut Vec<u8>, context: u64, total: &Total) -> Result<(), AllocError>
    ensures { OnOk result (text.new.items ≡ text.old.items ++ total_line context total.now) }
{
    put_number(text, b"context ", context)?;
    put_number(text, b" clusters ", total.clusters)?;
    put_number(text, b" entries ", total.entries)?;
    put_number(text, b" sum ", total.sum)?;
    text.push(b'\n')?;
    Ok(())
}

/// The lines of the totals of contexts, whose numbers go on from 0.
pub(crate) fn total_lines(alloc: Global, totals: &[Total]) -> Result<Vec<u8>, AllocError>
    ensures { IfOk result (λ text. text.items ≡ total_lines totals.now) }
{
    let mut text = Vec::new(alloc);
    for (context, total) in totals.iter().enumerate() {
        put_total(&mut text, context as u64, total)?;
    }
    Ok(text)
}
