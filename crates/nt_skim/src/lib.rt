//! Chosen fields of chosen entries: the entries of a file that pass a test, each as the list of its
//! chosen trees, put into any sink.
//!
//! Start with `plan` (`planning.rt`, `specs/Planning`), which chooses fields by their names, and then
//! `skim` (`skimming.rt`, `specs/Skimming`), which reads a file by such a plan. Where the entries go is
//! the trait `EntrySink`, by its `put_from` alone; what is selected stands in `specs/Select`.
//!
//! Words: a *place* counts the open fields at the top level, from 0, as the trees of an entry stand;
//! an entry *passes* where a number of it lies in the range of the test; it is *selected* where it
//! passes, and is then its trees at the chosen places. A *sink* tells which entries were put, as a
//! relation, and its *birth* is what no put changes. An entry is put *by trees* where its chosen trees are
//! made and given to the sink, and *by elements* where the sink takes them from the columns of the cluster.
//!
//! Proved: `plan` gives the fields of the names in their order, or the first name that stands against
//! it, and then the test (`planned`); what it chooses of any entry fits the fields that it tells
//! (`fits`), which keep the rules of fields (`rules`). Of any sink and any file: what `skim` put is just the selected entries of all clusters
//! (`skimmed`), up to exactly the first fault of a cluster; after any other refusal it is the first
//! of them; `Fault` comes only where the count of the file rose (`file`), `Sink` is what a put of this
//! call answered (`cause`); what is put fits the fields of the sink. Both ways to put have one contract,
//! that of `put` of the chosen trees (`AnswersPutFrom`): the way by trees stands in the trait, and a sink that
//! has a way by elements owes the same.
//!
//! Choices that bind nobody else:
//! - The number that is tested is read by itself, so an entry that doesn't pass takes no memory, and
//!   of one that passes only the chosen values are looked at.
//! - A name stands twice where it is given twice: two fields of one name are the first of them.
//! - A field is written under the name and the shape that were read, but for a record whose members are
//!   named by their places, which is a tuple (nt_writable). Fields are counted as the writer counts them.
//! - More entries than 64 bits can count, which no file has, are want of memory.
#![tactic(auto)]

mod error;
mod planning;
mod selection;
mod sink;
mod skimming;

pub use error::{PlanError, PutError, SkimError};
pub use planning::plan;
pub use selection::{PlaceTest, SkimPlan, Test};
pub use sink::EntrySink;
pub use skimming::skim;
