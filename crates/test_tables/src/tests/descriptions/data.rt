//! Schema texts with their rows, and descriptions in bytes, which were made outside from the same rows.

use crate::tests::rows::{Column, Field};

/// A worked schema.
pub const FIVE: &[u8] = b"x u32\ny u16\nt string\nv vec<u8>\np rec{a:bool,b:char}\n";

pub const FIVE_FIELDS: [Field; 8] = [
    (0, 0, 0, b"x", b"std::uint32_t"),
    (1, 0, 0, b"y", b"std::uint16_t"),
    (2, 0, 0, b"t", b"std::string"),
    (3, 1, 0, b"v", b"std::vector<std::uint8_t>"),
    (4, 2, 0, b"p", b""),
    (3, 0, 0, b"_0", b"std::uint8_t"),
    (4, 0, 0, b"a", b"bool"),
    (4, 0, 0, b"b", b"char"),
];

pub const FIVE_COLUMNS: [Column; 8] = [
    (0x14, 32, 0, 0, 0, 0),
    (0x12, 16, 1, 0, 0, 0),
    (0x1B, 64, 2, 0, 0, 0),
    (0x02, 8, 2, 0, 0, 0),
    (0x1B, 64, 3, 0, 0, 0),
    (0x04, 8, 5, 0, 0, 0),
    (0x00, 1, 6, 0, 0, 0),
    (0x02, 8, 7, 0, 0, 0),
];

/// A schema of the other types.
pub const OTHERS: &[u8] = b"c var<tuple<i8,byte>,i64>\nd tuple<vec<rec{e:i16}>,i32>\nf u64";

pub const OTHER_FIELDS: [Field; 11] = [
    (
        0,
        3,
        0,
        b"c",
        b"std::variant<std::tuple<std::int8_t,std::byte>,std::int64_t>",
    ),
    (1, 2, 0, b"d", b""),
    (2, 0, 0, b"f", b"std::uint64_t"),
    (0, 2, 0, b"_0", b"std::tuple<std::int8_t,std::byte>"),
    (0, 0, 0, b"_1", b"std::int64_t"),
    (1, 1, 0, b"_0", b""),
    (1, 0, 0, b"_1", b"std::int32_t"),
    (3, 0, 0, b"_0", b"std::int8_t"),
    (3, 0, 0, b"_1", b"std::byte"),
    (5, 2, 0, b"_0", b""),
    (9, 0, 0, b"e", b"std::int16_t"),
];

pub const OTHER_COLUMNS: [Column; 8] = [
    (0x10, 96, 0, 0, 0, 0),
    (0x0A, 64, 2, 0, 0, 0),
    (0x09, 64, 4, 0, 0, 0),
    (0x0F, 64, 5, 0, 0, 0),
    (0x07, 32, 6, 0, 0, 0),
    (0x03, 8, 7, 0, 0, 0),
    (0x01, 8, 8, 0, 0, 0),
    (0x05, 16, 10, 0, 0, 0),
];

/// The description of the worked schema.
pub const FIVE_BYTES: &[u8] =
    b"Y\xfe\xff\xff\xff\xff\xff\xff\x08\0\0\06\0\0\0\0\0\0\0\0\0\0\0\0\0\0\0\0\0\0\0\0\0\0\0\x01\0\
    \0\0x\x0d\0\0\0std::uint32_t\0\0\0\0\0\0\0\06\0\0\0\0\0\0\0\0\0\0\0\0\0\0\0\x01\0\0\0\0\0\0\
    \0\x01\0\0\0y\x0d\0\0\0std::uint16_t\0\0\0\0\0\0\0\04\0\0\0\0\0\0\0\0\0\0\0\0\0\0\0\x02\0\0\
    \0\0\0\0\0\x01\0\0\0t\x0b\0\0\0std::string\0\0\0\0\0\0\0\0B\0\0\0\0\0\0\0\0\0\0\0\0\0\0\0\
    \x03\0\0\0\x01\0\0\0\x01\0\0\0v\x19\0\0\0std::vector<std::uint8_t>\0\0\0\0\0\0\0\0)\0\0\0\0\
    \0\0\0\0\0\0\0\0\0\0\0\x04\0\0\0\x02\0\0\0\x01\0\0\0p\0\0\0\0\0\0\0\0\0\0\0\06\0\0\0\0\0\0\0\
    \0\0\0\0\0\0\0\0\x03\0\0\0\0\0\0\0\x02\0\0\0_0\x0c\0\0\0std::uint8_t\0\0\0\0\0\0\0\0-\0\0\0\
    \0\0\0\0\0\0\0\0\0\0\0\0\x04\0\0\0\0\0\0\0\x01\0\0\0a\x04\0\0\0bool\0\0\0\0\0\0\0\0-\0\0\0\0\
    \0\0\0\0\0\0\0\0\0\0\0\x04\0\0\0\0\0\0\0\x01\0\0\0b\x04\0\0\0char\0\0\0\0\0\0\0\0T\xff\xff\
    \xff\xff\xff\xff\xff\x08\0\0\0\x14\0\0\0\0\0\0\0\x14\0 \0\0\0\0\0\0\0\0\0\x14\0\0\0\0\0\0\0\
    \x12\0\x10\0\x01\0\0\0\0\0\0\0\x14\0\0\0\0\0\0\0\x1b\0@\0\x02\0\0\0\0\0\0\0\x14\0\0\0\0\0\0\
    \0\x02\0\x08\0\x02\0\0\0\0\0\0\0\x14\0\0\0\0\0\0\0\x1b\0@\0\x03\0\0\0\0\0\0\0\x14\0\0\0\0\0\
    \0\0\x04\0\x08\0\x05\0\0\0\0\0\0\0\x14\0\0\0\0\0\0\0\0\0\x01\0\x06\0\0\0\0\0\0\0\x14\0\0\0\0\
    \0\0\0\x02\0\x08\0\x07\0\0\0\0\0\0\0\xf4\xff\xff\xff\xff\xff\xff\xff\0\0\0\0\xf4\xff\xff\xff\
    \xff\xff\xff\xff\0\0\0\0";

/// The description of the schema of the other types, whose columns are plain.
pub const OTHER_BYTES: &[u8] =
    b"\x88\xfd\xff\xff\xff\xff\xff\xff\x0b\0\0\0e\0\0\0\0\0\0\0\0\0\0\0\0\0\0\0\0\0\0\0\x03\0\0\0\
    \x01\0\0\0c<\0\0\0std::variant<std::tuple<std::int8_t,std::byte>,std::int64_t>\0\0\0\0\0\0\0\
    \0)\0\0\0\0\0\0\0\0\0\0\0\0\0\0\0\x01\0\0\0\x02\0\0\0\x01\0\0\0d\0\0\0\0\0\0\0\0\0\0\0\06\0\
    \0\0\0\0\0\0\0\0\0\0\0\0\0\0\x02\0\0\0\0\0\0\0\x01\0\0\0f\x0d\0\0\0std::uint64_t\0\0\0\0\0\0\
    \0\0K\0\0\0\0\0\0\0\0\0\0\0\0\0\0\0\0\0\0\0\x02\0\0\0\x02\0\0\0_0!\0\0\0std::tuple<std::int8\
    _t,std::byte>\0\0\0\0\0\0\0\06\0\0\0\0\0\0\0\0\0\0\0\0\0\0\0\0\0\0\0\0\0\0\0\x02\0\0\0_1\x0c\
    \0\0\0std::int64_t\0\0\0\0\0\0\0\0*\0\0\0\0\0\0\0\0\0\0\0\0\0\0\0\x01\0\0\0\x01\0\0\0\x02\0\
    \0\0_0\0\0\0\0\0\0\0\0\0\0\0\06\0\0\0\0\0\0\0\0\0\0\0\0\0\0\0\x01\0\0\0\0\0\0\0\x02\0\0\0_1\
    \x0c\0\0\0std::int32_t\0\0\0\0\0\0\0\05\0\0\0\0\0\0\0\0\0\0\0\0\0\0\0\x03\0\0\0\0\0\0\0\x02\
    \0\0\0_0\x0b\0\0\0std::int8_t\0\0\0\0\0\0\0\03\0\0\0\0\0\0\0\0\0\0\0\0\0\0\0\x03\0\0\0\0\0\0\
    \0\x02\0\0\0_1\x09\0\0\0std::byte\0\0\0\0\0\0\0\0*\0\0\0\0\0\0\0\0\0\0\0\0\0\0\0\x05\0\0\0\
    \x02\0\0\0\x02\0\0\0_0\0\0\0\0\0\0\0\0\0\0\0\05\0\0\0\0\0\0\0\0\0\0\0\0\0\0\0\x09\0\0\0\0\0\
    \0\0\x01\0\0\0e\x0c\0\0\0std::int16_t\0\0\0\0\0\0\0\0T\xff\xff\xff\xff\xff\xff\xff\x08\0\0\0\
    \x14\0\0\0\0\0\0\0\x10\0`\0\0\0\0\0\0\0\0\0\x14\0\0\0\0\0\0\0\x0a\0@\0\x02\0\0\0\0\0\0\0\x14\
    \0\0\0\0\0\0\0\x09\0@\0\x04\0\0\0\0\0\0\0\x14\0\0\0\0\0\0\0\x0f\0@\0\x05\0\0\0\0\0\0\0\x14\0\
    \0\0\0\0\0\0\x07\0 \0\x06\0\0\0\0\0\0\0\x14\0\0\0\0\0\0\0\x03\0\x08\0\x07\0\0\0\0\0\0\0\x14\
    \0\0\0\0\0\0\0\x01\0\x08\0\x08\0\0\0\0\0\0\0\x14\0\0\0\0\0\0\0\x05\0\x10\0\x0a\0\0\0\0\0\0\0\
    \xf4\xff\xff\xff\xff\xff\xff\xff\0\0\0\0\xf4\xff\xff\xff\xff\xff\xff\xff\0\0\0\0";

/// A record field with a flag, and a column with another representation.
pub const FLAGS: &[u8] =
    b"\xc8\xff\xff\xff\xff\xff\xff\xff\x01\0\0\0,\0\0\0\0\0\0\0\0\0\0\0\0\0\0\0\0\0\0\0\x02\0\x04\
    \0\x01\0\0\0r\x03\0\0\0odd\0\0\0\0\0\0\0\0\xe0\xff\xff\xff\xff\xff\xff\xff\x01\0\0\0\x14\0\0\
    \0\0\0\0\0\x04\0\x08\0\0\0\0\0\0\0\x03\0\xf4\xff\xff\xff\xff\xff\xff\xff\0\0\0\0\xf4\xff\xff\
    \xff\xff\xff\xff\xff\0\0\0\0";

/// The same field without its flag.
pub const NO_FLAGS: &[u8] =
    b"\xc8\xff\xff\xff\xff\xff\xff\xff\x01\0\0\0,\0\0\0\0\0\0\0\0\0\0\0\0\0\0\0\0\0\0\0\x02\0\0\
    \0\x01\0\0\0r\x03\0\0\0odd\0\0\0\0\0\0\0\0\xe0\xff\xff\xff\xff\xff\xff\xff\x01\0\0\0\x14\0\0\
    \0\0\0\0\0\x04\0\x08\0\0\0\0\0\0\0\x03\0\xf4\xff\xff\xff\xff\xff\xff\xff\0\0\0\0\xf4\xff\xff\
    \xff\xff\xff\xff\xff\0\0\0\0";

/// No fields, no columns, no alias columns and no type information.
pub const NO_ROWS: &[u8] =
    b"\xf4\xff\xff\xff\xff\xff\xff\xff\0\0\0\0\xf4\xff\xff\xff\xff\xff\xff\xff\0\0\0\0\
    \xf4\xff\xff\xff\xff\xff\xff\xff\0\0\0\0\xf4\xff\xff\xff\xff\xff\xff\xff\0\0\0\0";

/// A field and a column with a first element.
pub const DEFERRED: &[u8] =
    b"\xbe\xff\xff\xff\xff\xff\xff\xff\x01\0\0\06\0\0\0\0\0\0\0\0\0\0\0\0\0\0\0\x01\0\0\0\0\0\0\0\
    \x01\0\0\0y\x0d\0\0\0std::uint16_t\0\0\0\0\0\0\0\0\xd8\xff\xff\xff\xff\xff\xff\xff\x01\0\0\0\
    \x1c\0\0\0\0\0\0\0\x12\0\x10\0\x01\0\0\0\x01\0\0\0\x02\0\0\0\0\0\0\0\xf4\xff\xff\xff\xff\xff\
    \xff\xff\0\0\0\0\xf4\xff\xff\xff\xff\xff\xff\xff\0\0\0\0";

/// A field with an alias, a description and three words of its flags, bytes behind the rows of both
/// lists, columns with a first element, with a value range that is missing, and with both, three
/// alias columns, and type information of many items that aren't there.
pub const FOREIGN: &[u8] =
    b"\x85\xff\xff\xff\xff\xff\xff\xff\x02\0\0\06\0\0\0\0\0\0\0\x07\0\0\0\x09\0\0\0\0\0\0\0\x02\0\
    \x05\0\x01\0\0\0r\x01\0\0\0T\x05\0\0\0alias\x04\0\0\0text\x01\x02\x034\0\0\0\0\0\0\0\0\0\0\
    \0\0\0\0\0\0\0\0\0\0\0\0\0\x01\0\0\0n\x0b\0\0\0std::int8_t\0\0\0\0\0\0\0\0\xee\xee\xee\xee\
    \xee\x97\xff\xff\xff\xff\xff\xff\xff\x03\0\0\0\x1c\0\0\0\0\0\0\0\x03\0\x08\0\x01\0\0\0\x01\
    \0\x01\0\x05\0\0\0\0\0\0\x80\x14\0\0\0\0\0\0\0\x03\0\x08\0\x01\0\0\0\x02\0\0\0,\0\0\0\0\0\0\
    \0\x03\0\x08\0\0\0\0\0\x03\0\0\0\x06\0\0\0\0\0\0\0\xff\xff\xff\xff\xff\xff\xff\xff\xff\xff\
    \xff\xff\xff\xff\xff\xff\xdd\xed\xff\xff\xff\xff\xff\xff\xff\x03\0\0\0\xcc\xcc\xcc\xcc\xcc\
    \xcc\xcc\xf3\xff\xff\xff\xff\xff\xff\xff\xff\xff\xff\xff\xbb";
