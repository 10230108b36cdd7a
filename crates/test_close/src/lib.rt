//! Rows for `nt_close`: files of one field that are begun, get clusters of one page each, staged or
//! not, and are closed, over memory: their lengths and bytes as they are laid out by hand, the limits
//! that they pass, ranges that are spoiled or not published, and each call of the disk failing in turn.
#![tactic(auto)]

#[cfg(test)]
mod files;
#[cfg(test)]
mod lists;
#[cfg(test)]
mod staged;
#[cfg(test)]
mod tests;
