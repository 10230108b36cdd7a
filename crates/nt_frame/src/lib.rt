//! Frames, envelopes and locators of an RNTuple file, written and read.
//!
//! What their bytes mean is said in nt_format; here is the code that reads and writes them, and
//! nothing that knows what is inside of a frame.
//!
//! Where to start: `writing.rt` with `specs/Writing` (frames that are begun), `reading.rt`, and
//! `envelope.rt`.
//!
//! Words: the *inside* of a frame is what stands between its size and its end; a frame is *begun*
//! and then *finished*; a *mark* is where a frame that is begun has its head.
//!
//! Proved: a read answers exactly what nt_format's reading gives, and a fault leaves the cursor
//! (`read_record`, `read_list`, `read_locator`); an envelope's payload or its first fault
//! (`read_envelope`); a sealed envelope is the spelled one (`seal_envelope`); frames inside frames,
//! each with its size, and a call without memory changes nothing (`FrameOut`: `ok`, `err`).
//!
//! Only tested: an envelope whose checksum was made outside.
//!
//! A choice that binds nobody else: frames inside frames are written with a mark for each frame that is begun, whose size is filled
//! in at its end, so that no frame is copied into the one around it.
#![tactic(auto)]

mod envelope;
mod parts;
mod reading;
mod writing;

pub use envelope::{read_envelope, seal_envelope};
pub use nt_format::{EnvelopeFault, Link, Locator, LocatorFault};
pub use reading::{FrameFault, read_list, read_locator, read_record};
pub use writing::FrameOut;
