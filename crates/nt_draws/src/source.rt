//! The event text of a context, made as it is read.

ghost use Rattle.std.specs.Prelude.{◌≡◌, ◌≤◌, min, length, take};
ghost use Rattle.arrayvec.specs.ArrayVec.{array_vec_len};

use crate::lines::{ROOM, put_event};
use arrayvec::ArrayVec;
use nt_outside::{Failed, Source};

/// The event text of a context, made as it is read: a line at a time, in a buffer of its own, so that a read takes no memory.
#[derive(Drop)]
pub struct EventSource {
    /// The number behind which the next event comes.
    number: u32,
    /// How many events are left, without that of `line`.
    events: u32,
    /// The line of an event, whose bytes from `at` on are still to be given.
    line: ArrayVec<u8, ROOM>,
    at: usize,
    ghost within: { at ≤ array_vec_len line },
}

impl EventSource {
    ghost use Rattle.std.specs.Prelude.{◌⊎◌, ◌<◌, Some};
    ghost use Rattle.nt_draws.specs.Lines.{events_text};
    ghost use Rattle.nt_draws.specs.Source.{state_of};

    /// The text of so many events behind a number.
    pub fn new(number: u32, events: u32) -> Self
        ensures { state_of result ≡ record { left = Some (events_text events number); faults = 0 } }
    {
        EventSource {
            number,
            events,
            line: ArrayVec::new(),
            at: 0,
        }
    }

    /// Makes the next line, where all of the last one was given.
    fn next_line(&mut self)
        requires some { 0 < self.old.events }
        requires given { self.old.at ≡ array_vec_len self.old.line }
        ensures same { state_of self.new ≡ state_of self.old }
        ensures ready { self.new.at < array_vec_len self.new.line }
    {
        self.line.clear();
        self.at = 0;
        self.number = put_event(&mut self.line, self.number);
        self.events -= 1;
    }

    /// Makes a byte ready, where one is left.
    fn ready(&mut self)
        ensures same { state_of self.new ≡ state_of self.old }
        ensures some { (self.new.at < array_vec_len self.new.line) ⊎ (self.new.events ≡ 0) }
    {
        if self.at == self.line.len() && self.events > 0 {
            self.next_line();
        }
    }
}

/// Copies as many of the first bytes as there is room for, and says how many.
fn copy_front(bytes: &[u8], buf: &mut [u8]) -> usize
    ensures count { result ≡ min (length bytes.now) (length buf.new) }
    ensures front { take result buf.new ≡ take result bytes.now }
{
    let count = bytes.len().min(buf.len());
    buf[..count].copy_from_slice(&bytes[..count]);
    count
}

impl Source for EventSource {
    ghost use Rattle.nt_draws.specs.Source.{state_of};

    ghost state = { state_of };

    fn read(&mut self, buf: &mut [u8]) -> Result<usize, Failed> {
        self.ready();
        let count = copy_front(&self.line.as_slice()[self.at..], buf);
        self.at += count;
        Ok(count)
    }
}
