//! Rows for `nt_meta`: payloads of page lists and footers laid out by a script from the tables of
//! the standard, the answers that the tables give for them bent and cut, and what is written.
#![tactic(auto)]

#[cfg(test)]
mod footers;
#[cfg(test)]
mod lists;
#[cfg(test)]
mod payloads;
#[cfg(test)]
mod writing;
