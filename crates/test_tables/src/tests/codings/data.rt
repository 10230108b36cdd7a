//! Pages by the integer arithmetic and `struct` of Python.

use nt_types::ColumnType;

/// Numbers of 64 bits.
const WIDE: &[u64] = &[0, 1, 0xffffffffffffffff, 1 << 63, 0x123456789abcdef];

/// The page of these numbers, as they are.
const WIDE_PAGE: &[u8] = &[
    0, 0, 0, 0, 0, 0, 0, 0, 1, 0, 0, 0, 0, 0, 0, 0, 0xff, 0xff, 0xff, 0xff, 0xff, 0xff, 0xff, 0xff,
    0, 0, 0, 0, 0, 0, 0, 0x80, 0xef, 0xcd, 0xab, 0x89, 0x67, 0x45, 0x23, 1,
];

/// Types, values, and their page.
pub const PAGES: [(&[ColumnType], &[u64], &[u8]); 26] = [
    (
        &[
            ColumnType::Byte,
            ColumnType::Char,
            ColumnType::Int8,
            ColumnType::UInt8,
        ],
        &[0, 1, 0xff],
        &[0, 1, 0xff],
    ),
    (
        &[ColumnType::Int16],
        &[0, 1, 0xffff],
        &[0, 0, 1, 0, 0xff, 0xff],
    ),
    (
        &[ColumnType::UInt16],
        &[0, 1, 0xffff, 0x8000, 0xcdef],
        &[0, 0, 1, 0, 0xff, 0xff, 0, 0x80, 0xef, 0xcd],
    ),
    (
        &[ColumnType::Int32, ColumnType::UInt32, ColumnType::Index32],
        &[0, 1, 0xffffffff],
        &[0, 0, 0, 0, 1, 0, 0, 0, 0xff, 0xff, 0xff, 0xff],
    ),
    (&[ColumnType::Int64, ColumnType::UInt64], WIDE, WIDE_PAGE),
    (
        &[ColumnType::Index64],
        &[0, 1, 0xffffffffffffffff],
        &[
            0, 0, 0, 0, 0, 0, 0, 0, 1, 0, 0, 0, 0, 0, 0, 0, 0xff, 0xff, 0xff, 0xff, 0xff, 0xff,
            0xff, 0xff,
        ],
    ),
    (&[ColumnType::Bit], &[1, 0, 1], &[5]),
    (&[ColumnType::Bit], &[1, 1, 1, 1, 1, 1, 1, 1, 1], &[0xff, 1]),
    (&[ColumnType::Bit, ColumnType::SplitUInt64], &[], &[]),
    (&[ColumnType::SplitUInt16], &[0x102, 0x304], &[2, 4, 1, 3]),
    (
        &[ColumnType::SplitUInt16],
        &[0xcdef, 0xffff, 1],
        &[0xef, 0xff, 1, 0xcd, 0xff, 0],
    ),
    (
        &[ColumnType::SplitUInt32],
        &[0x89abcdef, 0xffffffff, 1],
        &[0xef, 0xff, 1, 0xcd, 0xff, 0, 0xab, 0xff, 0, 0x89, 0xff, 0],
    ),
    (
        &[ColumnType::SplitUInt64],
        &[0x123456789abcdef, 0xffffffffffffffff, 1],
        &[
            0xef, 0xff, 1, 0xcd, 0xff, 0, 0xab, 0xff, 0, 0x89, 0xff, 0, 0x67, 0xff, 0, 0x45, 0xff,
            0, 0x23, 0xff, 0, 1, 0xff, 0,
        ],
    ),
    (
        &[ColumnType::SplitInt16],
        &[0xffff, 1, 0x8000],
        &[1, 2, 0xff, 0, 0, 0xff],
    ),
    (
        &[ColumnType::SplitInt16],
        &[0, 0x7fff, 0xfffe, 0x4def],
        &[0, 0xfe, 3, 0xde, 0, 0xff, 0, 0x9b],
    ),
    (
        &[ColumnType::SplitInt32],
        &[0xffffffff, 1, 0x80000000],
        &[1, 2, 0xff, 0, 0, 0xff, 0, 0, 0xff, 0, 0, 0xff],
    ),
    (
        &[ColumnType::SplitInt32],
        &[0, 0x7fffffff, 0xfffffffe, 0x9abcdef],
        &[
            0, 0xfe, 3, 0xde, 0, 0xff, 0, 0x9b, 0, 0xff, 0, 0x57, 0, 0xff, 0, 0x13,
        ],
    ),
    (
        &[ColumnType::SplitInt64],
        &[0xffffffffffffffff, 1, 0x8000000000000000],
        &[
            1, 2, 0xff, 0, 0, 0xff, 0, 0, 0xff, 0, 0, 0xff, 0, 0, 0xff, 0, 0, 0xff, 0, 0, 0xff, 0,
            0, 0xff,
        ],
    ),
    (
        &[ColumnType::SplitInt64],
        &[0, 0x7fffffffffffffff, 0xfffffffffffffffe, 0x123456789abcdef],
        &[
            0, 0xfe, 3, 0xde, 0, 0xff, 0, 0x9b, 0, 0xff, 0, 0x57, 0, 0xff, 0, 0x13, 0, 0xff, 0,
            0xcf, 0, 0xff, 0, 0x8a, 0, 0xff, 0, 0x46, 0, 0xff, 0, 2,
        ],
    ),
    (
        &[ColumnType::SplitIndex32],
        &[2, 2],
        &[2, 0, 0, 0, 0, 0, 0, 0],
    ),
    (&[ColumnType::SplitIndex32], &[5], &[5, 0, 0, 0]),
    (
        &[ColumnType::SplitIndex32],
        &[2, 2, 5, 5, 0x10203],
        &[
            2, 0, 3, 0, 0xfe, 0, 0, 0, 0, 1, 0, 0, 0, 0, 1, 0, 0, 0, 0, 0,
        ],
    ),
    (
        &[ColumnType::SplitIndex32],
        &[7, 3, 0xffffffff],
        &[7, 0xfc, 0xfc, 0, 0xff, 0xff, 0, 0xff, 0xff, 0, 0xff, 0xff],
    ),
    (
        &[ColumnType::SplitIndex64],
        &[2, 2, 5, 5, 0x10203],
        &[
            2, 0, 3, 0, 0xfe, 0, 0, 0, 0, 1, 0, 0, 0, 0, 1, 0, 0, 0, 0, 0, 0, 0, 0, 0, 0, 0, 0, 0,
            0, 0, 0, 0, 0, 0, 0, 0, 0, 0, 0, 0,
        ],
    ),
    (
        &[ColumnType::SplitIndex64],
        &[7, 3, 0xffffffffffffffff],
        &[
            7, 0xfc, 0xfc, 0, 0xff, 0xff, 0, 0xff, 0xff, 0, 0xff, 0xff, 0, 0xff, 0xff, 0, 0xff,
            0xff, 0, 0xff, 0xff, 0, 0xff, 0xff,
        ],
    ),
    (
        &[ColumnType::SplitInt16],
        &[
            45536, 45573, 45684, 45869, 46128, 46461, 46868, 47349, 47904, 48533, 49236, 50013,
            50864, 51789, 52788, 53861, 55008, 56229, 57524, 58893, 60336, 61853, 63444, 65109,
            1312, 3125, 5012, 6973, 9008, 11117, 13300, 15557, 17888, 20293, 22772, 25325, 27952,
        ],
        &[
            63, 245, 23, 165, 159, 5, 215, 21, 191, 213, 87, 69, 159, 101, 151, 53, 63, 181, 151,
            229, 159, 197, 87, 85, 64, 106, 40, 122, 96, 218, 232, 138, 192, 138, 232, 218, 96,
            156, 155, 155, 153, 151, 149, 145, 142, 137, 132, 127, 121, 114, 107, 99, 91, 82, 72,
            62, 51, 40, 28, 16, 3, 10, 24, 39, 54, 70, 86, 103, 121, 139, 158, 177, 197, 218,
        ],
    ),
];
