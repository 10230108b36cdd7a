//! File header and directory of a whole file, behind its first byte.

ghost use Rattle.std.specs.Prelude.{◌≡◌, length};
ghost use Rattle.nt_tfile.specs.Places.{ArePlaces};
ghost use Rattle.nt_close.specs.Making.{front_with};

use nt_container::FileFields;
use nt_tfile::{directory_bytes, header_bytes};

/// A front that isn't written yet.
fn empty_front() -> [u8; 225] {
    [0; 225]
}

/// File header and directory, without the first byte.
fn put_front(fields: &FileFields, out: &mut [u8])
    requires length { length out.old ≡ 225 }
    requires places { ArePlaces fields.now }
    ensures { out.new ≡ front_with fields.now }
{
    let (header, directory) = out.split_at_mut(99);
    header_bytes(fields, header);
    directory_bytes(fields, directory);
}

/// File header and directory of a whole file, without the first byte.
pub(crate) fn front_of(fields: &FileFields) -> [u8; 225]
    requires { ArePlaces fields.now }
    ensures { result ≡ front_with fields.now }
{
    let mut front = empty_front();
    put_front(fields, &mut front);
    front
}
