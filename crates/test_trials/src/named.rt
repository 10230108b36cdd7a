//! Bytes under names.

use std::alloc::{AllocError, Global};

/// Bytes under a name.
#[derive(Drop)]
pub struct Named {
    pub name: String,
    pub bytes: Vec<u8>,
}

/// The bytes that were put under a name last.
pub fn find<'a>(list: &'a [Named], name: &str) -> Option<&'a [u8]> {
    let mut found = None;
    for named in list {
        if named.name.as_str() == name {
            found = Some(named.bytes.as_slice());
        }
    }
    found
}

/// Puts bytes under a name.
pub fn put(
    alloc: Global,
    list: &mut Vec<Named>,
    name: &str,
    bytes: Vec<u8>,
) -> Result<(), AllocError> {
    let name = String::from_str(alloc, name)?;
    list.push(Named { name, bytes })?;
    Ok(())
}
