//! Each part of a container as a writer puts it into a slice, beside the part as it is laid out.

use crate::containers::{ANCHOR, BLOB_KEY, FREE_LIST, FRONT, KEY_LIST};
use crate::tests::SOUND;
use nt_container::FileFields;
use nt_tfile::{
    anchor_bytes, begin_bytes, blob_key, directory_bytes, free_bytes, header_bytes, key_list_bytes,
};
use std::test::Fail;

const FIELDS: FileFields = FileFields {
    end: 1137,
    keys: 953,
    free: 1066,
};

fn zeros<const N: usize>() -> [u8; N] {
    [0; N]
}

#[test]
fn the_front_is_begun_with_no_places(rt: HostRuntime) -> Result<(), Fail> {
    let mut want = FRONT.to_vec(rt.alloc())?;
    // the first byte, fEND, fSeekFree and fSeekKeys
    for place in [0, 18, 19, 26, 27, 206, 207] {
        if let Some(byte) = want.get_mut(place) {
            *byte = 0;
        }
    }
    let mut front = zeros::<226>();
    begin_bytes(&mut front);
    assert_eq!(rt; front.as_slice(), want.as_slice());
    Ok(())
}

#[test]
fn the_front_is_written_with_its_places(rt: HostRuntime) -> Result<(), Fail> {
    let mut header = zeros::<99>();
    header_bytes(&FIELDS, &mut header);
    assert_eq!(rt; header.as_slice(), &FRONT[1..100]);
    let mut directory = zeros::<126>();
    directory_bytes(&FIELDS, &mut directory);
    assert_eq!(rt; directory.as_slice(), &FRONT[100..]);
    Ok(())
}

#[test]
fn what_stands_behind_is_written_as_it_is_laid_out(rt: HostRuntime) -> Result<(), Fail> {
    let mut blob = zeros::<42>();
    blob_key(226, 177, &mut blob);
    assert_eq!(rt; blob, BLOB_KEY);
    let mut anchor = zeros::<134>();
    anchor_bytes(&SOUND, 819, &mut anchor);
    assert_eq!(rt; anchor, ANCHOR);
    let mut keys = zeros::<113>();
    key_list_bytes(953, 819, &mut keys);
    assert_eq!(rt; keys, KEY_LIST);
    let mut free = zeros::<71>();
    free_bytes(1066, &mut free);
    assert_eq!(rt; free, FREE_LIST);
    Ok(())
}
