//! Writes a file from a schema text and event texts of a host: the work of the command `write`.
//!
//! Start at `storing.rt` (`store`). `texts.rt` reads the schema text, opens the inputs and gives them back; `filling.rt` begins a file
//! and fills it by contexts, `closing.rt` closes it, both also for other commands that write; `orders.rt` makes the line of the commit
//! order; `settings.rt` is what goes down from `store` to each context; `laws.rt` joins what the crates below say of finished files;
//! `error.rt` is why a file isn't written.
//!
//! Words: a file is *filled* whose clusters are the chunks of its texts, and which can't pass for finished yet (`specs/Filling.antt`);
//! it is *stored* that is whole, laid out within the limits for the chunks of its texts and means them (`specs/Whole.antt`);
//! it is *left open* where it can't pass for finished (`specs/Worlds.antt`); what a crash *leaves* is nt_outside's, and what of that is
//! *unfinished* nt_cuts's (`specs/Crashes.antt`).
//!
//! Proved: after `Ok` the file is stored, and out has the line of its order; a schema fault is the text's first one, a bad line the
//! first of the lowest input, and a limit one that the chunks pass in whatever order they are committed. After a schema fault no
//! file was made, and nothing but the schema text was asked for; after a bad line and a limit the file is left open, after `Memory` it
//! is so or wasn't made, and after `Outside` too, unless it is stored or its first append failed. The line of the order is printed only
//! once all chunks are committed: whole then, but where that print fails. The first byte is written over only when all the rest stays.
//! So wherever a crash comes behind the first sync, it leaves a file that is refused as unfinished, or, where the first byte was written
//! over before, the stored file, in the order whose line out has; behind all steps of `Ok` just that, and of an answer but `Ok` and
//! `Outside` only what is unfinished. `Outside` comes only where the host's count rose, and each object that was opened comes back.
//! Nothing is only tested.
#![tactic(auto)]

mod closing;
mod error;
mod filling;
mod laws;
mod orders;
mod settings;
mod storing;
mod texts;

pub use closing::close_file;
pub use error::StoreError;
pub use filling::fill_file;
pub use settings::Settings;
pub use storing::{Names, store};
pub use texts::read_schema;
