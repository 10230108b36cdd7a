//! What contexts share.

use nt_book::Params;
use nt_schema::Schema;
use nt_types::Fields;
use std::alloc::Global;

/// What all contexts of a writer share, and how many workers run them.
#[derive(Drop)]
pub struct Shared<'a, G> {
    pub alloc: Global,
    /// What was described of the fields.
    pub schema: &'a Schema,
    pub fields: &'a Fields,
    pub params: &'a Params,
    /// What each context passes on its way.
    pub gate: &'a G,
    /// How many contexts run beside each other at most, from 1 to 64.
    pub workers: u32,
}
