//! Frames inside frames, each with its size filled in once it is finished.

ghost use Rattle.std.specs.Prelude.{◌≡◌, ◌<◌, ◌^◌, [], length, Some, None, OnOk, OnErr};
ghost use Rattle.std.specs.Int.{w16, w32, w64, to_le_bytes, to_be_bytes};
ghost use Rattle.nt_format.specs.Strings.{string};
ghost use Rattle.nt_frame.specs.Writing.{bytes_added, frame_begun, frame_finished};

use crate::parts::{put_head, put_text};
use std::alloc::AllocError;
use std::marker::Model;

/// A frame that is begun.
#[derive(Clone, Copy, Debug, PartialEq, Eq)]
pub(crate) struct Mark {
    /// Where the frame begins in the bytes.
    pub(crate) at: usize,
    /// The number of items of a list frame.
    pub(crate) count: Option<u32>,
}

/// Bytes with frames that are begun, one inside the other. What is written goes into the frame
/// that was begun last, or where none is begun behind the bytes that were there.
#[derive(Debug, Drop)]
pub struct FrameOut {
    out: Vec<u8>,
    marks: Vec<Mark>,
}

impl Model for FrameOut {
    ghost use Rattle.std.specs.Prelude.{length, reverse};
    ghost use Rattle.nt_frame.specs.Writing.{Written};

    ghost Value = { Written };

    ghost use Rattle.nt_frame.specs.Marks.{marked, AreMarks};

    ghost view = { λ w. marked (reverse w.marks.items) w.out.items };

    ghost invariant = { λ w. AreMarks (reverse w.marks.items) (length w.out.items) };
}

impl FrameOut {
    ghost use Rattle.nt_frame.specs.Marks.{head_len};

    /// Goes on behind these bytes.
    pub fn new(out: Vec<u8>) -> FrameOut
        ensures { result ≡ record { inside = out.items; frames = [] } }
    {
        let marks = Vec::new(*out.allocator());
        FrameOut { out, marks }
    }

    /// Begins a record frame.
    pub fn begin_record(&mut self) -> Result<(), AllocError>
        ensures ok { OnOk result (self.new ≡ frame_begun None self.old) }
        ensures err { OnErr result (self.new ≡ self.old) }
    {
        self.begin(None, &[0; 8])
    }

    /// Begins a list frame of so many items.
    pub fn begin_list(&mut self, count: u32) -> Result<(), AllocError>
        ensures ok { OnOk result (self.new ≡ frame_begun (Some count) self.old) }
        ensures err { OnErr result (self.new ≡ self.old) }
    {
        self.begin(Some(count), &[0; 12])
    }

    // Begins a frame, with room for its head.
    fn begin(&mut self, count: Option<u32>, head: &[u8]) -> Result<(), AllocError>
        requires { length head.now ≡ head_len count }
        ensures ok { OnOk result (self.new ≡ frame_begun count self.old) }
        ensures err { OnErr result (self.new ≡ self.old) }
    {
        let at = self.out.len();
        self.marks.reserve(1)?;
        self.out.extend_from_slice(head)?;
        self.marks.push_reserved(Mark { at, count });
        Ok(())
    }

    /// Finishes the frame that was begun last: fills in its size.
    pub fn finish(&mut self)
        requires { 0 < length self.old.frames }
        ensures { self.new ≡ frame_finished self.old }
    {
        if let Some(mark) = self.marks.pop() {
            put_head(&mut self.out, mark);
        }
    }

    /// The bytes, once each frame is finished.
    pub fn into_bytes(self) -> Vec<u8>
        requires { self.frames ≡ [] }
        ensures bytes { result.items ≡ self.inside }
        ensures fit { length result.items < 2 ^ 63 }
    {
        self.out
    }

    /// Writes a string: its length, and its bytes.
    #[tactic(auto, using(crate::proofs::Marks::appends))]
    pub fn text(&mut self, bytes: &[u8]) -> Result<(), AllocError>
        requires { length bytes.now < 2 ^ 32 }
        ensures ok { OnOk result (self.new ≡ bytes_added (string bytes.now) self.old) }
        ensures err { OnErr result (self.new ≡ self.old) }
    {
        put_text(&mut self.out, bytes)?;
        Ok(())
    }

    // Writes these bytes.
    #[tactic(auto, using(crate::proofs::Marks::appends))]
    fn put(&mut self, bytes: &[u8]) -> Result<(), AllocError>
        ensures ok { OnOk result (self.new ≡ bytes_added bytes.now self.old) }
        ensures err { OnErr result (self.new ≡ self.old) }
    {
        self.out.extend_from_slice(bytes)?;
        Ok(())
    }

    /// Writes a number, the lowest byte first.
    pub fn put_u16le(&mut self, v: u16) -> Result<(), AllocError>
        ensures ok { OnOk result (self.new ≡ bytes_added (to_le_bytes w16 v) self.old) }
        ensures err { OnErr result (self.new ≡ self.old) }
    {
        self.put(&v.to_le_bytes())
    }

    /// Writes a number, the lowest byte first.
    pub fn put_u32le(&mut self, v: u32) -> Result<(), AllocError>
        ensures ok { OnOk result (self.new ≡ bytes_added (to_le_bytes w32 v) self.old) }
        ensures err { OnErr result (self.new ≡ self.old) }
    {
        self.put(&v.to_le_bytes())
    }

    /// Writes a number, the lowest byte first.
    pub fn put_u64le(&mut self, v: u64) -> Result<(), AllocError>
        ensures ok { OnOk result (self.new ≡ bytes_added (to_le_bytes w64 v) self.old) }
        ensures err { OnErr result (self.new ≡ self.old) }
    {
        self.put(&v.to_le_bytes())
    }

    /// Writes a number, the highest byte first.
    pub fn put_u16be(&mut self, v: u16) -> Result<(), AllocError>
        ensures ok { OnOk result (self.new ≡ bytes_added (to_be_bytes w16 v) self.old) }
        ensures err { OnErr result (self.new ≡ self.old) }
    {
        self.put(&v.to_be_bytes())
    }

    /// Writes a number, the highest byte first.
    pub fn put_u32be(&mut self, v: u32) -> Result<(), AllocError>
        ensures ok { OnOk result (self.new ≡ bytes_added (to_be_bytes w32 v) self.old) }
        ensures err { OnErr result (self.new ≡ self.old) }
    {
        self.put(&v.to_be_bytes())
    }

    /// Writes a number, the highest byte first.
    pub fn put_u64be(&mut self, v: u64) -> Result<(), AllocError>
        ensures ok { OnOk result (self.new ≡ bytes_added (to_be_bytes w64 v) self.old) }
        ensures err { OnErr result (self.new ≡ self.old) }
    {
        self.put(&v.to_be_bytes())
    }
}
