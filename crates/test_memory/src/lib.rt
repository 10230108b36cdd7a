//! Tests of the outside in memory: which calls fail, what is read, printed and kept then, what a crash leaves, and that its objects
//! can be handed to another thread.
//!
//! There is nothing here but tests, so that nt_memory is proved once: how many reads a long text takes, what a failed call leaves,
//! where ranges lie and in which order they are settled, which call is the n-th over all objects, and that the calls succeed with
//! ample memory.
#![tactic(auto)]

#[cfg(test)]
mod kept;
#[cfg(test)]
mod tests;
