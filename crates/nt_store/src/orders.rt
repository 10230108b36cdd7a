//! The line that tells in which order the clusters of a file were committed.

ghost use Rattle.std.specs.Prelude.{◌≡◌, IfOk};
ghost use Rattle.nt_store.specs.Orders.{order_line};

use itoa::Buffer;
use std::alloc::{AllocError, Global};

/// The line of an order: the context of each cluster. It is made whole, so that it is printed in few pieces.
pub(crate) fn order_line(alloc: Global, order: &[u32]) -> Result<Vec<u8>, AllocError>
    ensures { IfOk result (λ line. line.items ≡ order_line order.now) }
{
    let mut line = b"order".to_vec(alloc)?;
    for context in order {
        let mut digits = Buffer::new();
        line.push(b' ')?;
        line.extend_from_slice(digits.format(*context).as_bytes())?;
    }
    line.push(b'\n')?;
    Ok(line)
}
