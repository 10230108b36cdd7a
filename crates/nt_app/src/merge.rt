//! The command `merge`: files in, one with the clusters of all of them out.

ghost use Rattle.std.specs.Prelude.{◌≡◌, false, length};
ghost use Rattle.nt_book.specs.Ranges.{IsFromTo};
ghost use Rattle.nt_command_line.specs.Commands.{names_of};
ghost use Rattle.nt_app.specs.Merges.{place_of_merge, status_of_merge, MergeNamed};

use crate::status::{SchemaPlace, Status};
use nt_command_line::MergeWords;
use nt_merge::SchemaPlace as MergePlace;
use nt_merge_files::{MergeNames, MergeStoreError, store_merged};
use nt_outside::Host;
use std::alloc::Global;

/// Where the schemas of files that are merged can't be those of one.
fn place_of_merge(place: MergePlace) -> SchemaPlace
    ensures { result ≡ place_of_merge place }
{
    match place {
        MergePlace::Closed { file, field } => SchemaPlace::Closed { file, field },
        MergePlace::Deferred { file, column } => SchemaPlace::Deferred { file, column },
        MergePlace::Field { file, id } => SchemaPlace::Field { file, id },
        MergePlace::Column { file, id } => SchemaPlace::Column { file, id },
    }
}

/// The answer of a file that was written of others, or of what came in place of that.
fn status_of_merge(stored: Result<(), MergeStoreError>) -> Status
    ensures { result ≡ status_of_merge stored }
{
    match stored {
        Ok(()) => Status::Done,
        Err(MergeStoreError::Outside) => Status::Outside,
        Err(MergeStoreError::Memory) => Status::Memory,
        Err(MergeStoreError::Defect { file, error }) => Status::FileOf { file, error },
        Err(MergeStoreError::Schema(place)) => Status::Schema {
            place: place_of_merge(place),
        },
        Err(MergeStoreError::Limit { reached, limit }) => Status::Limit { reached, limit },
    }
}

/// The whole command `merge`.
pub(crate) fn merge<H: Host>(alloc: Global, host: &mut H, words: &MergeWords<'_>) -> Status
    requires count { IsFromTo 1 64 (length (names_of words.now.files.items)) }
    requires unstaged { words.now.params.staged ≡ false }
    ensures { MergeNamed words.now.out.now (names_of words.now.files.items) words.now.params
        (H.state host.old) (H.state host.new) result }
{
    let names = MergeNames {
        out: words.out,
        files: words.files.as_slice(),
    };
    let stored = store_merged(alloc, host, names, &words.params);
    status_of_merge(stored)
}
