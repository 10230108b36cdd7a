//! Keys' headers as they are written (own profile).

ghost use Rattle.std.specs.Prelude.{◌≡◌, ◌+◌, ◌<◌, ◌≤◌, ◌^◌, length};
ghost use Rattle.nt_container.specs.Spelling.{key_header_len, key_sizes, key_names, key_header, file_key, blob_key};
ghost use Rattle.nt_container.specs.Words.{short_tstring};
ghost use Rattle.nt_container.specs.Lengths.{sizes_len, names_len, file_key_len, blob_key_len, most_place};

/// Date and time of every record: 1995-01-01, 00:00:00.
pub const TIME: u32 = 0x00420000;

/// fBEGIN: where the first key stands, that of the file's directory.
pub const FIRST_KEY: u32 = 100;

/// The file's own name.
pub const FILE_NAME: &[u8] = b"events.root";

/// The version of a key that has places of 8 bytes.
const KEY_VERSION: u16 = 1004;

/// The bytes of a key's numbers before its places.
const SIZES_LEN: usize = 18;

/// Nbytes, version, ObjLen, Datime, KeyLen and Cycle.
#[tactic(auto, unfolding(nt_container::specs::Spelling::key_sizes))]
fn write_sizes(header_len: u16, object_len: u32, out: &mut [u8])
    requires length { length out.old ≡ sizes_len }
    requires fits { header_len + object_len < 2 ^ 32 }
    ensures { out.new ≡ key_sizes header_len object_len }
{
    let (len, out) = out.split_at_mut(4);
    len.copy_from_slice(&(u32::from(header_len) + object_len).to_be_bytes());
    let (version, out) = out.split_at_mut(2);
    version.copy_from_slice(&KEY_VERSION.to_be_bytes());
    let (plain_len, out) = out.split_at_mut(4);
    plain_len.copy_from_slice(&object_len.to_be_bytes());
    let (time, out) = out.split_at_mut(4);
    time.copy_from_slice(&TIME.to_be_bytes());
    let (key_len, cycle) = out.split_at_mut(2);
    key_len.copy_from_slice(&header_len.to_be_bytes());
    cycle.copy_from_slice(&1u16.to_be_bytes());
}

/// A string of fewer than 255 bytes.
#[tactic(auto, unfolding(nt_container::specs::Words::short_tstring))]
pub fn write_tstring(text: &[u8], out: &mut [u8])
    requires length { length out.old ≡ length text.now + 1 }
    requires short { length text.now < 255 }
    ensures { out.new ≡ short_tstring text.now }
{
    let (len, bytes) = out.split_at_mut(1);
    len.copy_from_slice(&[text.len() as u8]);
    bytes.copy_from_slice(text);
}

/// SeekKey, SeekPdir, class, name and an empty title.
#[tactic(auto, unfolding(nt_container::specs::Spelling::key_names))]
fn write_names(place: u64, directory: u64, class: &[u8], name: &[u8], out: &mut [u8])
    requires length { length out.old ≡ names_len class.now name.now }
    requires class { length class.now < 255 }
    requires name { length name.now < 255 }
    ensures { out.new ≡ key_names place directory class.now name.now }
{
    let (key, out) = out.split_at_mut(8);
    key.copy_from_slice(&place.to_be_bytes());
    let (parent, out) = out.split_at_mut(8);
    parent.copy_from_slice(&directory.to_be_bytes());
    let (of_class, out) = out.split_at_mut(class.len() + 1);
    write_tstring(class, of_class);
    let (of_name, title) = out.split_at_mut(name.len() + 1);
    write_tstring(name, of_name);
    write_tstring(b"", title);
}

/// The header of the key at a place, of an object of so many bytes.
#[tactic(auto, unfolding(nt_container::specs::Spelling::key_header))]
pub fn write_key(
    object_len: u32,
    place: u64,
    directory: u64,
    class: &[u8],
    name: &[u8],
    out: &mut [u8],
)
    requires length { length out.old ≡ key_header_len class.now name.now }
    requires class { length class.now < 255 }
    requires name { length name.now < 255 }
    requires fits { key_header_len class.now name.now + object_len < 2 ^ 32 }
    ensures { out.new ≡ key_header object_len place directory class.now name.now }
{
    let header_len = out.len() as u16;
    let (sizes, names) = out.split_at_mut(SIZES_LEN);
    write_sizes(header_len, object_len, sizes);
    write_names(place, directory, class, name, names);
}

/// The key of a record of the file itself.
#[tactic(auto, unfolding(nt_container::specs::Spelling::file_key))]
pub fn write_file_key(object_len: u32, place: u64, directory: u64, out: &mut [u8])
    requires length { length out.old ≡ file_key_len }
    requires fits { object_len < 2 ^ 16 }
    ensures { out.new ≡ file_key object_len place directory }
{
    write_key(object_len, place, directory, b"TFile", FILE_NAME, out);
}

/// The header of the key of a blob that starts there and has so many bytes of payload.
#[tactic(auto, unfolding(nt_container::specs::Spelling::blob_key))]
pub fn blob_key(start: u64, payload: u32, out: &mut [u8])
    requires length { length out.old ≡ blob_key_len }
    requires fits { payload + blob_key_len < 2 ^ 32 }
    requires start { start ≤ most_place }
    ensures { out.new ≡ blob_key payload start }
{
    write_key(payload, start, u64::from(FIRST_KEY), b"RBlob", b"", out);
}
