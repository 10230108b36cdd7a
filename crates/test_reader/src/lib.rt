//! Rows for `nt_reader`: whole files laid out by a script, the entries that they hold, and their
//! first faults where they are cut, bent or sealed again.
#![tactic(auto)]

#[cfg(test)]
mod bends;
#[cfg(test)]
mod files;
#[cfg(test)]
mod optionals;
#[cfg(test)]
mod tests;
#[cfg(test)]
mod whole;
