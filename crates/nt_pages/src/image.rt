//! The image of a cluster.

ghost use Rattle.std.specs.Prelude.{◌≡◌, ◌≤◌, ◌++◌, length, drop};
ghost use Rattle.nt_pages.specs.Image.{key_room};

use nt_book::ClusterMeta;
use nt_lists::Bytes;

/// A cluster as it goes to the file.
#[derive(Drop)]
pub struct ClusterImage {
    /// 42 bytes of room for the key, and the payload behind them.
    pub bytes: Bytes,
    /// Where its pages lie, counted from the beginning of the payload.
    pub meta: ClusterMeta,
}

impl ClusterImage {
    /// Writes the key into its room. The payload and what is kept of the cluster stay.
    pub fn put_key(&mut self, key: &[u8])
        requires key { length key.now ≡ key_room }
        requires room { key_room ≤ length self.old.bytes }
        ensures bytes { self.new.bytes ≡ key.now ++ drop key_room self.old.bytes }
        ensures meta { self.new.meta ≡ self.old.meta }
    {
        self.bytes.put_over(0, key);
    }
}

/// An image can be handed to another thread.
pub fn images_can_move() {
    can_move::<ClusterImage>();
}

/// What can be handed to another thread.
fn can_move<T: Send>() {}
