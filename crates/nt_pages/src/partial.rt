//! An image while its pages are written.

ghost use Rattle.std.specs.Prelude.{◌≡◌, ◌≤◌, ◌++◌, length, drop, replicate, OnOk, IfOk};
ghost use Rattle.nt_pages.specs.Image.{key_room};

use std::alloc::AllocError;

/// The bytes before the payload.
pub const ROOM: usize = 42;

/// The bytes of a checksum.
pub const CHECKSUM: usize = 8;

/// The front of an image, which is written. Behind it may lie bytes of an earlier image.
#[derive(Drop)]
pub struct PartialImage {
    /// What is written, and what lies behind it.
    pub bytes: Vec<u8>,
    /// The bytes that are written.
    pub len: usize,
    ghost within: { len ≤ length bytes.items },
}

impl PartialImage {
    ghost use Rattle.nt_pages.specs.Written.{written_bytes};

    /// The room for the key, in memory that an earlier image had. What is lacking of this size is
    /// taken at once.
    pub fn begin(memory: Vec<u8>, size: usize) -> Result<PartialImage, AllocError>
        ensures { IfOk result (λ p. written_bytes p ≡ replicate key_room 0) }
    {
        let bytes = with_room(memory, size)?;
        let mut image = PartialImage { bytes, len: 0 };
        image.grow(ROOM)?;
        zero_room(&mut image.bytes);
        image.len = ROOM;
        Ok(image)
    }

    /// Sees to bytes up to a place. Where an earlier image had some, they stay as they are.
    pub fn grow(&mut self, end: usize) -> Result<(), AllocError>
        ensures written { written_bytes self.new ≡ written_bytes self.old }
        ensures len { self.new.len ≡ self.old.len }
        ensures ok { OnOk result (end ≤ length self.new.bytes.items) }
    {
        if self.bytes.len() < end {
            self.bytes.resize(end, 0)?;
        }
        Ok(())
    }

    /// The bytes that are written.
    pub fn finish(self) -> Vec<u8>
        ensures { result.items ≡ written_bytes self }
    {
        let PartialImage { bytes, len } = self;
        let mut bytes = bytes;
        bytes.truncate(len);
        bytes
    }
}

/// Writes zeros over the room for the key.
fn zero_room(image: &mut [u8])
    requires { key_room ≤ length image.old }
    ensures { image.new ≡ replicate key_room 0 ++ drop key_room image.old }
{
    let (room, _) = image.split_at_mut(ROOM);
    room.copy_from_slice(&[0; ROOM]);
}

/// Memory for so many bytes. Where it is taken anew, earlier bytes are not copied to it.
fn with_room(memory: Vec<u8>, size: usize) -> Result<Vec<u8>, AllocError> {
    let mut bytes = memory;
    if bytes.capacity() < size {
        bytes.clear();
        bytes.reserve_exact(size)?;
    }
    Ok(bytes)
}
