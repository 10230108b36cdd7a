//! How a file is written.

use nt_book::Params;
use std::alloc::Global;

/// How a file is written, whatever goes into it.
#[derive(Drop)]
pub struct Settings<'a, G> {
    pub alloc: Global,
    pub params: &'a Params,
    /// What each context passes on its way.
    pub gate: &'a G,
    /// How many contexts run beside each other at most, from 1 to 64.
    pub workers: u32,
}
