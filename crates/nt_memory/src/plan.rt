//! Which calls of which objects are to fail.

ghost use Rattle.std.specs.Prelude.{◌≡◌, [], IfOk};
ghost use Rattle.nt_memory.specs.Planned.{numbers_for};

use crate::trip::Trip;
use std::alloc::{AllocError, Global};

/// An object of a host: the host, a text or a file that it opened, numbered from 0 in the order of opening, all its disks, or
/// the pen of each disk that has this number, from 0 in the order of making.
#[derive(Clone, Copy, Debug, PartialEq, Eq)]
pub enum Object {
    Host,
    Text(u32),
    File(u32),
    Disk,
    Pen(u32),
}

impl Object {
    ghost use Rattle.nt_memory.specs.Planned.{is_same};

    pub(crate) fn is_same(self, other: Object) -> bool
        ensures { result ≡ is_same self other }
    {
        match (self, other) {
            (Object::Host, Object::Host) | (Object::Disk, Object::Disk) => true,
            (Object::Text(one), Object::Text(two))
            | (Object::File(one), Object::File(two))
            | (Object::Pen(one), Object::Pen(two)) => one == two,
            _ => false,
        }
    }
}

/// A call of an object that is to fail.
#[derive(Clone, Copy, Debug, PartialEq, Eq)]
pub struct Planned {
    pub object: Object,
    pub call: u64,
}

/// The numbers of an object's calls.
pub fn numbers_for(
    alloc: Global,
    planned: &[Planned],
    object: Object,
) -> Result<Vec<u64>, AllocError>
    ensures { IfOk result (λ numbers. numbers.items ≡ numbers_for object planned.now) }
{
    planned
        .iter()
        .filter(|p| p.object.is_same(object))
        .map(|p| p.call)
        .collect(alloc)
}

/// What holds of objects that are still to be opened: the calls that are to fail, how many texts and files were opened, and below
/// which number all pens stand whose calls are to fail; what texts and files count in, and what disks do; whether an append that
/// fails leaves half of its bytes; and the most bytes that a read of a text gives.
#[derive(Drop)]
pub struct Plan {
    pub planned: Vec<Planned>,
    pub texts: u32,
    pub files: u32,
    pub pens: u32,
    pub trip: Trip,
    pub disk_trip: Trip,
    pub torn: bool,
    pub most: usize,
}

impl Plan {
    ghost use Rattle.nt_memory.specs.Untripped.{IsUntripped};

    pub fn new(alloc: Global) -> Self
        ensures planned { result.planned.items ≡ [] }
        ensures texts { result.texts ≡ 0 }
        ensures files { result.files ≡ 0 }
        ensures pens { result.pens ≡ 0 }
        ensures counts { IsUntripped result }
    {
        Plan {
            planned: Vec::new(alloc),
            texts: 0,
            files: 0,
            pens: 0,
            trip: Trip::none(),
            disk_trip: Trip::none(),
            torn: false,
            most: usize::MAX,
        }
    }
}
