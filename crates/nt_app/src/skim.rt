//! The command `skim`: a file in, another with chosen fields of chosen entries out.

ghost use Rattle.std.specs.Prelude.{◌≡◌, ◌≤◌, false, IfOk, length, option_map};
ghost use Rattle.nt_skim.specs.Tests.{test_view};
ghost use Rattle.nt_command_line.specs.Commands.{names_of};
ghost use Rattle.nt_command_line.specs.SkimWords.{said_test};
ghost use Rattle.nt_app.specs.Skims.{name_test, choice_said, status_of_plan, status_of_skim, IsChoiceOf, SkimNamed};

use crate::status::{SchemaPlace, Status};
use nt_command_line::{SkimWords, TestWords};
use nt_outside::Host;
use nt_skim::{PlanError, Test};
use nt_skim_file::{SkimChoice, SkimNames, SkimStoreError, store_selected};
use nt_types::Bytes;
use std::alloc::{AllocError, Global};

/// The names of the fields that are chosen, and the test, as copies of the words.
#[derive(Drop)]
struct Choice {
    names: Vec<Bytes>,
    test: Option<Test>,
}

/// The answer of a schema that has no such plan.
fn status_of_plan(error: PlanError) -> Status
    ensures { result ≡ status_of_plan error }
{
    let place = match error {
        PlanError::UnknownField { name } => SchemaPlace::UnknownField { name },
        PlanError::Twice { name } => SchemaPlace::Twice { name },
        PlanError::NotWritable { name } => SchemaPlace::NotWritable { name },
        PlanError::NotANumber { name } => SchemaPlace::NotANumber { name },
        PlanError::Memory => return Status::Memory,
    };
    Status::Schema { place }
}

/// The answer of a file that was written of another, or of what came in place of that.
fn status_of_skim(stored: Result<(), SkimStoreError>) -> Status
    ensures { result ≡ status_of_skim stored }
{
    match stored {
        Ok(()) => Status::Done,
        Err(SkimStoreError::Outside) => Status::Outside,
        Err(SkimStoreError::Memory) => Status::Memory,
        Err(SkimStoreError::Defect(fault)) => Status::File(fault),
        Err(SkimStoreError::Unplanned(error)) => status_of_plan(error),
        Err(SkimStoreError::Limit { reached, limit }) => Status::Limit { reached, limit },
    }
}

/// A copy of a name.
fn copied(alloc: Global, name: &str) -> Result<Bytes, AllocError>
    ensures { IfOk result (λ b. b ≡ name.now) }
{
    Ok(Bytes::from_vec(name.as_bytes().to_vec(alloc)?))
}

/// Copies of names, in their order.
fn copies_of(alloc: Global, names: &[&str]) -> Result<Vec<Bytes>, AllocError>
    ensures { IfOk result (λ copies. copies.items ≡ names_of names.now) }
{
    let mut copies = Vec::new(alloc);
    for name in names {
        copies.push(copied(alloc, name)?)?;
    }
    Ok(copies)
}

/// The test that the words say, if they say one.
fn test_of(alloc: Global, said: &Option<TestWords<'_>>) -> Result<Option<Test>, AllocError>
    ensures { IfOk result (λ t. option_map test_view t ≡ option_map (λ s. name_test (said_test s)) said.now) }
{
    match said {
        Some(said) => Ok(Some(Test {
            name: copied(alloc, said.name)?,
            least: said.least,
            greatest: said.greatest,
        })),
        None => Ok(None),
    }
}

/// What the words choose.
fn choice_of(alloc: Global, words: &SkimWords<'_>) -> Result<Choice, AllocError>
    ensures { IfOk result (λ c. IsChoiceOf (names_of words.now.names.items) (option_map said_test words.now.test)
        c.names.items (option_map test_view c.test)) }
{
    Ok(Choice {
        names: copies_of(alloc, &words.names)?,
        test: test_of(alloc, &words.test)?,
    })
}

/// The whole command `skim`.
pub(crate) fn skim<H: Host>(alloc: Global, host: &mut H, words: &SkimWords<'_>) -> Status
    requires some { 1 ≤ length (names_of words.now.names.items) }
    requires unstaged { words.now.params.staged ≡ false }
    ensures { SkimNamed words.now.out.now words.now.file.now
        (choice_said (names_of words.now.names.items) (option_map said_test words.now.test)) words.now.params
        (H.state host.old) (H.state host.new) result }
{
    let Ok(chosen) = choice_of(alloc, words) else {
        return Status::Memory;
    };
    let names = SkimNames {
        out: words.out,
        file: words.file,
    };
    let choice = SkimChoice {
        names: chosen.names.as_slice(),
        test: chosen.test.as_ref(),
    };
    let stored = store_selected(alloc, host, names, choice, &words.params);
    status_of_skim(stored)
}
