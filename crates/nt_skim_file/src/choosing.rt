//! What is chosen of a file.

ghost use Rattle.std.specs.Prelude.{◌≡◌, ◌<◌, length};
ghost use Rattle.std.specs.Option.{option_map};
ghost use Rattle.nt_skim.specs.Tests.{test_view};
ghost use Rattle.nt_skim_file.specs.Choosing.{Chooses};

use crate::error::SkimStoreError;
use nt_outside::ReadAt;
use nt_reader::Reader;
use nt_skim::{SkimPlan, Test, plan};
use nt_types::Bytes;
use std::alloc::Global;

/// The fields of these names, in this order, of the entries that pass the test, if there is one.
#[derive(Clone, Copy)]
pub struct SkimChoice<'a> {
    pub names: &'a [Bytes],
    pub test: Option<&'a Test>,
}

/// A file that was attached to, and what is chosen of it.
#[derive(Drop)]
pub(crate) struct Chosen {
    pub reader: Reader,
    pub plan: SkimPlan,
}

/// Attaches to a file, and makes the plan of its schema.
pub(crate) fn choose<F: ReadAt>(
    alloc: Global,
    file: &mut F,
    choice: SkimChoice<'_>,
) -> Result<Chosen, SkimStoreError>
    ensures { Chooses (record { names = choice.entry.names.now; test = option_map (λ t. test_view t.now) choice.entry.test })
        (F.state file.old) (F.state file.new) result }
{
    match Reader::attach(alloc, file) {
        Ok(reader) => match plan(alloc, reader.schema(), choice.names, choice.test) {
            Ok(plan) => Ok(Chosen { reader, plan }),
            Err(error) => Err(SkimStoreError::from(error)),
        },
        Err(failure) => Err(SkimStoreError::from(failure)),
    }
}
