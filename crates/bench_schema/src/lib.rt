//! Descriptions read by a C function, which the benchmark `bench/names.sh` calls. Proved: where its answer isn't 0, it is the number
//! of fields that the bytes describe. What is kept of a schema is proved in `nt_schema`.
#![tactic(auto)]

ghost use Rattle.std.specs.Prelude.{◌≡◌, ◌≢◌, length, Ok};
ghost use Rattle.nt_num.specs.Place.{At};
ghost use Rattle.nt_format.specs.Reading.{standing};
ghost use Rattle.nt_grammar.specs.Table.{Table, no_rows};
ghost use Rattle.nt_grammar.specs.Reading.{description_at};
ghost use Rattle.nt_grammar.specs.declared.part.Part.TheVariants.{Header};

use nt_num::Cur;
use nt_schema::{Part, Schema, read_description};
use std::alloc::Global;

/// Reads the description of a header; how many fields it has, and 0 where it can't be read.
#[unsafe(no_mangle)]
pub extern "C" fn nt_schema_fields(alloc: Global, bytes: &[u8]) -> u32
    ensures { (t : Table) (left : At)
        → description_at Header no_rows (standing 0 bytes.now) ≡ Ok (t, left) → result ≢ 0
        → result ≡ length t.fields }
{
    let mut schema = Schema::new(alloc);
    match read_description(&mut Cur::new(bytes), &mut schema, Part::Header) {
        Ok(()) => schema.fields(),
        Err(_) => 0,
    }
}
