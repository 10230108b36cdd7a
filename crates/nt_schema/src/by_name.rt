//! The top-level fields by name.

ghost use Rattle.std.specs.Prelude.{◌≡◌, ◌<◌, ◌^◌, ℕ, List, Some, None, length, ◌==◌, ◌&&◌, OnOk, IfOk, if◌then◌else◌};
ghost use Rattle.std.specs.Option.{option_or};
ghost use Rattle.std.specs.Str.{bytes_eq};
ghost use Rattle.nt_schema.specs.ByName.{found, HasNames};

use indexmap::IndexMap;
use nt_grammar::FieldRow;
use sha2::{Digest, Sha256};
use std::alloc::{AllocError, Global};
use std::hash::RandomState;
use std::io;
use std::random::RandomSource;

/// Fields by name, in their order. The key of the hasher depends on all names, so that nobody can
/// choose names that collide.
pub(crate) type Names = IndexMap<Vec<u8>, u32, RandomState>;

/// The digest of all names, in place of chance.
#[derive(Drop)]
struct NamesDigest([u8; 32]);

impl RandomSource for NamesDigest {
    fn fill_bytes(&self, buf: &mut [u8]) -> io::Result<()> {
        for (to, byte) in buf.iter_mut().zip(self.0.iter()) {
            *to = *byte;
        }
        Ok(())
    }
}

fn digest_of(rows: &[FieldRow]) -> NamesDigest {
    let mut hasher = Sha256::new();
    for row in rows {
        let name = row.name.as_slice();
        hasher.update(&(name.len() as u64).to_le_bytes());
        hasher.update(name);
    }
    NamesDigest(hasher.finalize())
}

/// No names, with the hasher for those of these rows. The digest is always there.
fn no_names(alloc: Global, rows: &[FieldRow]) -> Result<Names, AllocError>
    ensures { IfOk result (λ names. (n : List ℕ) → found names n ≡ None) }
{
    match RandomState::new(&digest_of(rows)) {
        Ok(state) => Ok(IndexMap::with_hasher(alloc, state)),
        Err(_) => Err(AllocError),
    }
}

/// Keeps the id of a field at the top level under its name, unless the name is there.
fn add_field(alloc: Global, names: &mut Names, row: &FieldRow, id: u32) -> Result<(), AllocError>
    ensures { OnOk result ((n : List ℕ)
        → found names.new n ≡ option_or (found names.old n)
        (if (row.now.parent == id) && bytes_eq n row.now.name then Some id else None)) }
{
    let name = row.name.as_slice();
    if row.parent == id && names.get(name).is_none() {
        names.insert(name.to_vec(alloc)?, id)?;
    }
    Ok(())
}

/// The id of the first field of each name.
pub(crate) fn names_of(alloc: Global, rows: &[FieldRow]) -> Result<Names, AllocError>
    requires { length rows.now < 2 ^ 32 }
    ensures { IfOk result (λ names. HasNames (Some names) rows.now) }
{
    let mut names = no_names(alloc, rows)?;
    for (id, row) in rows.iter().enumerate() {
        add_field(alloc, &mut names, row, id as u32)?;
    }
    Ok(names)
}
