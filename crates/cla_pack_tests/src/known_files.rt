//! Files that were written down by hand, one of each kind of group and one of two groups.

use cla_pack::FieldName;
use cla_pack::FieldName::{
    Code, Column, Columns, Count, Cover, Gap, Groups, Kind, Length, Magic, Offset, Rest, Rows,
    Runs, Tuples, Value, Width,
};

/// A field: its group, its name and the offset of its first byte.
pub(crate) type Place = (u32, FieldName, u64);

/// A file: its bytes, its cells row by row, and its fields in the order of the file.
pub(crate) type Known = (&'static [u8], &'static [i64], &'static [Place]);

/// Changes of a file: the offset of a byte, what it becomes, and the first bad field.
pub(crate) type Damage = (usize, u8, Place);

/// The plain, coded, listed and run-length columns of a few rows, and a row of two plain groups.
pub(crate) const KNOWN: [Known; 5] = [
    (
        b"CLAGRP01\x02\0\0\0\x01\0\0\0\x01\0\0\0\x01\x01\0\0\0\0\0\0\0\x05\0\0\0\0\0\0\0\
        \xf9\xff\xff\xff\xff\xff\xff\xff",
        &[5, -7],
        &[
            (0, Magic, 0),
            (0, Rows, 8),
            (0, Columns, 12),
            (0, Groups, 16),
            (1, Kind, 20),
            (1, Width, 21),
            (1, Column, 25),
            (1, Value, 29),
            (1, Value, 37),
        ],
    ),
    (
        b"CLAGRP01\x03\0\0\0\x01\0\0\0\x01\0\0\0\x02\x01\0\0\0\0\0\0\0\x01\0\0\0\x05\0\0\0\0\0\0\0\0\0\0",
        &[5, 5, 5],
        &[
            (0, Magic, 0),
            (0, Rows, 8),
            (0, Columns, 12),
            (0, Groups, 16),
            (1, Kind, 20),
            (1, Width, 21),
            (1, Column, 25),
            (1, Tuples, 29),
            (1, Value, 33),
            (1, Code, 41),
            (1, Code, 42),
            (1, Code, 43),
        ],
    ),
    (
        b"CLAGRP01\x02\0\0\0\x01\0\0\0\x01\0\0\0\x03\x01\0\0\0\0\0\0\0\x01\0\0\0\x01\x05\0\0\0\0\0\0\0\x01\0\x01\0",
        &[0, 5],
        &[
            (0, Magic, 0),
            (0, Rows, 8),
            (0, Columns, 12),
            (0, Groups, 16),
            (1, Kind, 20),
            (1, Width, 21),
            (1, Column, 25),
            (1, Tuples, 29),
            (1, Rest, 33),
            (1, Value, 34),
            (1, Count, 42),
            (1, Offset, 44),
        ],
    ),
    (
        b"CLAGRP01\x03\0\0\0\x01\0\0\0\x01\0\0\0\x04\x01\0\0\0\0\0\0\0\x01\0\0\0\x01\x05\0\0\0\0\0\0\0\
        \x02\0\0\0\0\0\0\0\x01\0\0\0\x01\0\0\0\x01\0\0\0",
        &[5, 0, 5],
        &[
            (0, Magic, 0),
            (0, Rows, 8),
            (0, Columns, 12),
            (0, Groups, 16),
            (1, Kind, 20),
            (1, Width, 21),
            (1, Column, 25),
            (1, Tuples, 29),
            (1, Rest, 33),
            (1, Value, 34),
            (1, Runs, 42),
            (1, Gap, 46),
            (1, Length, 50),
            (1, Gap, 54),
            (1, Length, 58),
        ],
    ),
    (
        b"CLAGRP01\x01\0\0\0\x03\0\0\0\x02\0\0\0\x01\x02\0\0\0\0\0\0\0\x02\0\0\0\x05\0\0\0\0\0\0\0\x06\0\0\0\0\0\0\0\
        \x01\x01\0\0\0\x01\0\0\0\x07\0\0\0\0\0\0\0",
        &[5, 7, 6],
        &[
            (0, Magic, 0),
            (0, Rows, 8),
            (0, Columns, 12),
            (0, Groups, 16),
            (1, Kind, 20),
            (1, Width, 21),
            (1, Column, 25),
            (1, Column, 29),
            (1, Value, 33),
            (1, Value, 41),
            (2, Kind, 49),
            (2, Width, 50),
            (2, Column, 54),
            (2, Value, 58),
        ],
    ),
];

/// Changes of each of these files.
pub(crate) const DAMAGED: [&[Damage]; 5] = [
    &[
        (0, 68, (0, Magic, 0)),
        (7, 50, (0, Magic, 0)),
        (8, 0, (0, Rows, 8)),
        (11, 128, (0, Rows, 8)),
        (12, 0, (0, Columns, 12)),
        (15, 128, (0, Columns, 12)),
        (16, 0, (0, Groups, 16)),
        (16, 2, (0, Groups, 16)),
        (20, 0, (1, Kind, 20)),
        (20, 5, (1, Kind, 20)),
        (21, 0, (1, Width, 21)),
        (21, 2, (1, Width, 21)),
        (25, 1, (1, Column, 25)),
        (34, 128, (1, Value, 29)),
        (42, 127, (1, Value, 37)),
    ],
    &[
        (29, 0, (1, Tuples, 29)),
        (29, 4, (1, Tuples, 29)),
        (38, 128, (1, Value, 33)),
        (40, 1, (1, Value, 33)),
        (41, 1, (1, Code, 41)),
        (43, 1, (1, Code, 43)),
    ],
    // (a second offset that the file doesn't have, and a row that no list names where there is no rest)
    &[
        (29, 3, (1, Tuples, 29)),
        (33, 2, (1, Rest, 33)),
        (34, 0, (1, Value, 34)),
        (42, 0, (1, Count, 42)),
        (42, 3, (1, Count, 42)),
        (42, 2, (1, Offset, 46)),
        (44, 2, (1, Offset, 44)),
        (33, 0, (1, Cover, 46)),
    ],
    &[
        (29, 4, (1, Tuples, 29)),
        (33, 2, (1, Rest, 33)),
        (34, 0, (1, Value, 34)),
        (42, 0, (1, Runs, 42)),
        (42, 4, (1, Runs, 42)),
        (46, 3, (1, Gap, 46)),
        (50, 0, (1, Length, 50)),
        (50, 4, (1, Length, 50)),
        (54, 0, (1, Gap, 54)),
        (54, 2, (1, Gap, 54)),
        (58, 0, (1, Length, 58)),
        (58, 2, (1, Length, 58)),
        (33, 0, (1, Cover, 62)),
    ],
    &[
        (16, 1, (1, Width, 21)),
        (16, 3, (1, Width, 21)),
        (21, 3, (1, Width, 21)),
        (25, 1, (1, Column, 25)),
        (29, 0, (1, Column, 29)),
        (29, 3, (1, Column, 29)),
        (49, 5, (2, Kind, 49)),
        (50, 0, (2, Width, 50)),
        (50, 2, (2, Width, 50)),
        (54, 0, (2, Column, 54)),
        (54, 2, (2, Column, 54)),
        (65, 128, (2, Value, 58)),
    ],
];
