//! Tests of `nt_event`, apart from it so that its own check stays short: worked lines with their entries and faults, and the
//! lines of texts that come in pieces of any size.
#![tactic(auto)]

#[cfg(test)]
mod tests;
