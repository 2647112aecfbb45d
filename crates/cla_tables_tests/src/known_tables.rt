//! Files that were written down by hand, and what is told of them. The sizes are worked out from the format.

use cla_layout::Kind;

/// A group: its kind, its columns, its tuples and its bytes.
pub(crate) type KnownGroup = (Kind, usize, u32, u64);

/// A file: its bytes, its rows, columns and packed size, its cells row by row, and its groups.
pub(crate) type Known = (
    &'static [u8],
    (u32, u32, u64),
    &'static [i64],
    &'static [KnownGroup],
);

/// A text of one plain group. Packed files: the plain, coded, listed and run-length column of a few rows, and
/// a row of two plain groups. The rule would keep the third one plain.
pub(crate) const KNOWN: [Known; 6] = [
    (
        b"%%MatrixMarket matrix array integer general\n2 2\n1\n3\n2\n4\n",
        (2, 2, 65),
        &[1, 2, 3, 4],
        &[(Kind::Plain, 2, 2, 45)],
    ),
    (
        b"CLAGRP01\x02\0\0\0\x01\0\0\0\x01\0\0\0\x01\x01\0\0\0\0\0\0\0\x05\0\0\0\0\0\0\0\
        \xf9\xff\xff\xff\xff\xff\xff\xff",
        (2, 1, 45),
        &[5, -7],
        &[(Kind::Plain, 1, 2, 25)],
    ),
    (
        b"CLAGRP01\x03\0\0\0\x01\0\0\0\x01\0\0\0\x02\x01\0\0\0\0\0\0\0\x01\0\0\0\x05\0\0\0\0\0\0\0\0\0\0",
        (3, 1, 44),
        &[5, 5, 5],
        &[(Kind::Codes, 1, 1, 24)],
    ),
    (
        b"CLAGRP01\x02\0\0\0\x01\0\0\0\x01\0\0\0\x03\x01\0\0\0\0\0\0\0\x01\0\0\0\x01\x05\0\0\0\0\0\0\0\x01\0\x01\0",
        (2, 1, 46),
        &[0, 5],
        &[(Kind::Offsets, 1, 2, 26)],
    ),
    (
        b"CLAGRP01\x03\0\0\0\x01\0\0\0\x01\0\0\0\x04\x01\0\0\0\0\0\0\0\x01\0\0\0\x01\x05\0\0\0\0\0\0\0\
        \x02\0\0\0\0\0\0\0\x01\0\0\0\x01\0\0\0\x01\0\0\0",
        (3, 1, 62),
        &[5, 0, 5],
        &[(Kind::Runs, 1, 2, 42)],
    ),
    (
        b"CLAGRP01\x01\0\0\0\x03\0\0\0\x02\0\0\0\x01\x02\0\0\0\0\0\0\0\x02\0\0\0\x05\0\0\0\0\0\0\0\x06\0\0\0\0\0\0\0\
        \x01\x01\0\0\0\x01\0\0\0\x07\0\0\0\0\0\0\0",
        (1, 3, 66),
        &[5, 7, 6],
        &[(Kind::Plain, 2, 1, 29), (Kind::Plain, 1, 1, 17)],
    ),
];
