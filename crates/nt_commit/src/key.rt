//! The key of a cluster's blob, in the room of its image.

ghost use Rattle.std.specs.Prelude.{◌≡◌, ◌-◌, ◌<◌, ◌≤◌, ◌^◌, ◌++◌, length, drop};
ghost use Rattle.nt_container.specs.Lengths.{most_place};
ghost use Rattle.nt_container.specs.Spelling.{blob_key};
ghost use Rattle.nt_pages.specs.Image.{key_room};

use nt_pages::ClusterImage;

/// The bytes of a key.
const KEY: usize = 42;

/// A key that isn't written yet.
fn empty_key() -> [u8; KEY] {
    [0; KEY]
}

/// Writes the key of a blob that starts there into the room of an image.
pub fn write_key(image: &mut ClusterImage, start: u64)
    requires room { key_room ≤ length image.old.bytes }
    requires fits { length image.old.bytes < 2 ^ 32 }
    requires start { start ≤ most_place }
    ensures { image.new ≡ record image.old {
      bytes = blob_key (length image.old.bytes - key_room) start ++ drop key_room image.old.bytes;
    } }
{
    let payload = image.bytes.as_slice().len() - KEY;
    let mut key = empty_key();
    nt_tfile::blob_key(start, payload as u32, &mut key);
    image.put_key(&key);
}
