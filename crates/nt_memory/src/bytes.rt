//! Room for bytes, zeros that are added to a list, and that bytes are bytes.

ghost use Rattle.std.specs.Prelude.{◌≡◌, ◌+◌, ◌<◌, ◌^◌, ◌≤◌, ℕ, All, vec_len, vec_capacity, OnOk};
ghost use Rattle.nt_memory.specs.Grown.{IsGrown};

use std::alloc::AllocError;

/// Bytes are bytes.
pub fn are_bytes(bytes: &[u8])
    ensures { All (λ (b : ℕ). b < 2 ^ 8) bytes.now }
{}

/// Takes the memory of so many more bytes than there is memory for, and no more: room that is kept would double at each call.
pub fn grow_room(list: &mut Vec<u8>, more: usize) -> Result<(), AllocError>
    ensures items { list.new.items ≡ list.old.items }
    ensures len { vec_len list.new ≡ vec_len list.old }
    ensures capacity { OnOk result (vec_capacity list.old + more ≤ vec_capacity list.new) }
    ensures least { vec_capacity list.old ≤ vec_capacity list.new }
{
    let Some(room) = (list.capacity() - list.len()).checked_add(more) else {
        return Err(AllocError);
    };
    list.reserve_exact(room)
}

/// Adds zeros for which there is room.
pub fn add_zeros(list: &mut Vec<u8>, count: usize)
    requires { vec_len list.old + count ≤ vec_capacity list.old }
    ensures items { IsGrown count list.old.items list.new.items }
    ensures len { vec_len list.new ≡ vec_len list.old + count }
    ensures capacity { vec_capacity list.new ≡ vec_capacity list.old }
{
    for _ in 0..count {
        list.push_reserved(0);
    }
}
