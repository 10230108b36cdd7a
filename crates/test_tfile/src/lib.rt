//! Rows for `nt_tfile`: containers laid out by a script from the tables of the layout, the answers
//! that the tables give for them, and the parts as they are written.
#![tactic(auto)]

#[cfg(test)]
mod containers;
#[cfg(test)]
mod tests;
#[cfg(test)]
mod writing;
