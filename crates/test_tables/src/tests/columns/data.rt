//! Pages by the integer arithmetic of Python.

use nt_types::ColumnType;

/// Types, elements of a column, and the page of all but the first and the last.
pub const PAGES: [(&[ColumnType], &[u64], &[u8]); 15] = [
    (
        &[ColumnType::Bit],
        &[1, 0, 1, 1, 0, 0, 1, 0, 1, 1, 1],
        &[0xa6, 1],
    ),
    (
        &[
            ColumnType::Byte,
            ColumnType::Char,
            ColumnType::Int8,
            ColumnType::UInt8,
        ],
        &[7, 0, 0xff, 0x80, 0x68, 1],
        &[0, 0xff, 0x80, 0x68],
    ),
    (
        &[ColumnType::Int16, ColumnType::UInt16],
        &[1, 0xffff, 0x8000, 0x102, 0x304, 3],
        &[0xff, 0xff, 0, 0x80, 2, 1, 4, 3],
    ),
    (
        &[ColumnType::SplitInt16],
        &[1, 0xffff, 0x8000, 0x102, 0x304, 3],
        &[1, 0xff, 4, 8, 0, 0xff, 2, 6],
    ),
    (
        &[ColumnType::SplitUInt16],
        &[1, 0xffff, 0x8000, 0x102, 0x304, 3],
        &[0xff, 0, 2, 4, 0xff, 0x80, 1, 3],
    ),
    (
        &[ColumnType::Int32, ColumnType::UInt32],
        &[9, 0xffffffff, 0x80000000, 0x1020304, 0, 0x4d],
        &[
            0xff, 0xff, 0xff, 0xff, 0, 0, 0, 0x80, 4, 3, 2, 1, 0, 0, 0, 0,
        ],
    ),
    (
        &[ColumnType::SplitInt32],
        &[9, 0xffffffff, 0x80000000, 0x1020304, 0, 0x4d],
        &[1, 0xff, 8, 0, 0, 0xff, 6, 0, 0, 0xff, 4, 0, 0, 0xff, 2, 0],
    ),
    (
        &[ColumnType::SplitUInt32],
        &[9, 0xffffffff, 0x80000000, 0x1020304, 0, 0x4d],
        &[
            0xff, 0, 4, 0, 0xff, 0, 3, 0, 0xff, 0, 2, 0, 0xff, 0x80, 1, 0,
        ],
    ),
    (
        &[ColumnType::Int64, ColumnType::UInt64],
        &[
            5,
            0xffffffffffffffff,
            0x8000000000000000,
            0x102030405060708,
            0,
            6,
        ],
        &[
            0xff, 0xff, 0xff, 0xff, 0xff, 0xff, 0xff, 0xff, 0, 0, 0, 0, 0, 0, 0, 0x80, 8, 7, 6, 5,
            4, 3, 2, 1, 0, 0, 0, 0, 0, 0, 0, 0,
        ],
    ),
    (
        &[ColumnType::SplitInt64],
        &[
            5,
            0xffffffffffffffff,
            0x8000000000000000,
            0x102030405060708,
            0,
            6,
        ],
        &[
            1, 0xff, 0x10, 0, 0, 0xff, 0xe, 0, 0, 0xff, 0xc, 0, 0, 0xff, 0xa, 0, 0, 0xff, 8, 0, 0,
            0xff, 6, 0, 0, 0xff, 4, 0, 0, 0xff, 2, 0,
        ],
    ),
    (
        &[ColumnType::SplitUInt64],
        &[
            5,
            0xffffffffffffffff,
            0x8000000000000000,
            0x102030405060708,
            0,
            6,
        ],
        &[
            0xff, 0, 8, 0, 0xff, 0, 7, 0, 0xff, 0, 6, 0, 0xff, 0, 5, 0, 0xff, 0, 4, 0, 0xff, 0, 3,
            0, 0xff, 0, 2, 0, 0xff, 0x80, 1, 0,
        ],
    ),
    (
        &[ColumnType::Index32],
        &[1, 2, 2, 5, 5, 9],
        &[2, 0, 0, 0, 2, 0, 0, 0, 5, 0, 0, 0, 5, 0, 0, 0],
    ),
    (
        &[ColumnType::SplitIndex32],
        &[1, 2, 2, 5, 5, 9],
        &[2, 0, 3, 0, 0, 0, 0, 0, 0, 0, 0, 0, 0, 0, 0, 0],
    ),
    (
        &[ColumnType::Index64],
        &[1, 2, 2, 5, 5, 9],
        &[
            2, 0, 0, 0, 0, 0, 0, 0, 2, 0, 0, 0, 0, 0, 0, 0, 5, 0, 0, 0, 0, 0, 0, 0, 5, 0, 0, 0, 0,
            0, 0, 0,
        ],
    ),
    (
        &[ColumnType::SplitIndex64],
        &[1, 2, 2, 5, 5, 9],
        &[
            2, 0, 3, 0, 0, 0, 0, 0, 0, 0, 0, 0, 0, 0, 0, 0, 0, 0, 0, 0, 0, 0, 0, 0, 0, 0, 0, 0, 0,
            0, 0, 0,
        ],
    ),
];
