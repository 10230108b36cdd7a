//! Bytes of the files that are changed, and the fault that is then told.

/// Code, place, cluster, column, element and the two values of a fault; all 0 where a call failed.
pub type Fault = (u8, u64, u32, u32, u64, u64, u64);

/// The lines of the first cluster.
pub const FIRST: &[u8] = b"[10,\"a\",0]\n[20,\"bc\",0]\n";

/// The lines of both.
pub const BOTH: &[u8] = b"[10,\"a\",0]\n[20,\"bc\",0]\n[30,\"\",7]\n[40,\"d\",8]\n[50,\"\",9]\n";

/// Bytes that are changed at their places, what is printed before the fault, and the fault, if there is one.
pub const BENT: [(&[(usize, u8)], &[u8], Option<Fault>); 4] = [
    // the second page of `x` in the second cluster, and ends that fall, under a new checksum
    (
        &[
            (795, 51),
            (811, 1),
            (819, 0),
            (835, 162),
            (836, 132),
            (837, 234),
            (838, 27),
            (839, 189),
            (840, 139),
            (841, 245),
            (842, 125),
        ],
        FIRST,
        Some((21, 795, 1, 0, 0, 10129216751442095306, 7747687844065994257)),
    ),
    // ends that fall alone
    (
        &[
            (811, 1),
            (819, 0),
            (835, 162),
            (836, 132),
            (837, 234),
            (838, 27),
            (839, 189),
            (840, 139),
            (841, 245),
            (842, 125),
        ],
        FIRST,
        Some((22, 1254, 1, 1, 1, 0, 0)),
    ),
    // a column that begins inside of the first cluster, in a footer under a new checksum
    (
        &[
            (1594, 1),
            (1686, 210),
            (1687, 150),
            (1688, 66),
            (1689, 119),
            (1690, 107),
            (1691, 130),
            (1692, 211),
            (1693, 244),
        ],
        b"",
        Some((20, 1014, 0, 4, 0, 0, 0)),
    ),
    // a page of a closed field that is read nowhere
    (&[(705, 99)], BOTH, None),
];

/// Bytes of the small file that are changed at their places, with the checksum of their envelope, and
/// the fault.
pub const SMALL: [(&[(usize, u8)], Fault); 7] = [
    // the first byte of the page
    (
        &[(487, 2)],
        (21, 487, 0, 0, 0, 8691522550617757783, 9449019704153015562),
    ),
    // a byte of the footer, under the old checksum
    (
        &[(727, 1)],
        (11, 719, 0, 0, 0, 1453682686820900061, 6148337772082373051),
    ),
    // a feature flag of the footer
    (
        &[
            (727, 1),
            (811, 187),
            (812, 33),
            (813, 22),
            (814, 224),
            (815, 160),
            (816, 72),
            (817, 83),
            (818, 85),
        ],
        (13, 727, 0, 0, 0, 0, 1),
    ),
    // the checksum of another header, in the page list
    (
        &[
            (561, 8),
            (669, 200),
            (670, 159),
            (671, 30),
            (672, 114),
            (673, 210),
            (674, 182),
            (675, 185),
            (676, 79),
        ],
        (16, 561, 0, 0, 0, 14891279851674381064, 14891279851674381065),
    ),
    // a page of three elements for two entries
    (
        &[
            (641, 253),
            (669, 199),
            (670, 124),
            (671, 98),
            (672, 58),
            (673, 28),
            (674, 4),
            (675, 112),
            (676, 181),
        ],
        (18, 629, 0, 0, 0, 0, 0),
    ),
    // a page of 15 bytes
    (
        &[
            (645, 15),
            (669, 7),
            (670, 5),
            (671, 101),
            (672, 237),
            (673, 191),
            (674, 114),
            (675, 173),
            (676, 151),
        ],
        (9, 487, 0, 0, 0, 16, 15),
    ),
    // a page far outside of the file
    (
        &[
            (656, 1),
            (669, 210),
            (670, 214),
            (671, 244),
            (672, 182),
            (673, 151),
            (674, 244),
            (675, 164),
            (676, 76),
        ],
        (10, 72057594037928423, 0, 0, 0, 0, 0),
    ),
];
