//! Texts with the matrices that they spell.

use crate::heads::{
    ARRAY, ARRAY_SKEW, ARRAY_SYMMETRIC, GENERAL, NONE, PATTERN, PATTERN_SYMMETRIC, SKEW, SYMMETRIC,
};

/// A text, as its first line and the rest, and its matrix: rows, columns, and the cells row by row.
pub(crate) type Good = (&'static str, &'static str, u32, u32, &'static [i64]);

/// Coordinate files of integers.
pub(crate) const GENERALS: [Good; 21] = [
    (GENERAL, "1 1 0\n", 1, 1, &[0]),
    (
        GENERAL,
        "2 3 2\n1 1 4\n2 3 -5\n",
        2,
        3,
        &[4, 0, 0, 0, 0, -5],
    ),
    (
        GENERAL,
        "2 3 2\n2 3 -5\n1 1 4\n",
        2,
        3,
        &[4, 0, 0, 0, 0, -5],
    ),
    // entries of one cell are added
    (GENERAL, "1 1 2\n1 1 4\n1 1 -4\n", 1, 1, &[0]),
    (GENERAL, "2 1 3\n2 1 5\n1 1 1\n2 1 6\n", 2, 1, &[1, 11]),
    (GENERAL, "1 1 3\n1 1 1\n1 1 1\n1 1 1", 1, 1, &[3]),
    (GENERAL, "1 2 1\n1 2 0\n", 1, 2, &[0, 0]),
    // signs and zeros in front
    (GENERAL, "+1 01 1\n+001 1 +007\n", 1, 1, &[7]),
    (GENERAL, "1 1 1\n1 1 -0\n", 1, 1, &[0]),
    (GENERAL, "1 1 -0\n", 1, 1, &[0]),
    (
        GENERAL,
        "1 1 1\n1 1 00000000000000000000000000000000000000000000000007\n",
        1,
        1,
        &[7],
    ),
    (
        GENERAL,
        "1 1 1\n00000000000000000000000000000000000000000000000001 1 -00000000000000000000000000000000000000000007",
        1,
        1,
        &[-7],
    ),
    // the ends of the range
    (
        GENERAL,
        "1 1 1\n1 1 140737488355327\n",
        1,
        1,
        &[140737488355327],
    ),
    (
        GENERAL,
        "1 1 1\n1 1 -140737488355327\n",
        1,
        1,
        &[-140737488355327],
    ),
    (
        GENERAL,
        "1 1 3\n1 1 140737488355327\n1 1 -1\n1 1 1\n",
        1,
        1,
        &[140737488355327],
    ),
    (
        GENERAL,
        "1 2 4\n1 2 -140737488355327\n1 1 140737488355327\n1 2 1\n1 1 -140737488355327\n",
        1,
        2,
        &[0, -140737488355326],
    ),
    // blanks and ends of lines
    (
        GENERAL,
        "  2\t2 \t 1  \n\t2\t1   9\t\n",
        2,
        2,
        &[0, 0, 9, 0],
    ),
    (GENERAL, "1 1 1\r\n1 1 5\r\n", 1, 1, &[5]),
    (GENERAL, "1 1 1\r\n1 1 5\r", 1, 1, &[5]),
    (GENERAL, "1 1 1\n1 1 5 \r\n", 1, 1, &[5]),
    (GENERAL, "1 1 1\n1 1 5\t", 1, 1, &[5]),
];

/// Lines that are skipped.
pub(crate) const SKIPPED: [Good; 8] = [
    (
        GENERAL,
        "% c\n\n  % x\n\t\n%%\n1 1 1\n% mid\n\n1 1 5\n% end\n\n \t\n%",
        1,
        1,
        &[5],
    ),
    (
        GENERAL,
        "%1 1 9\n1 1 1\n%1 1 9\n1 1 5\n%1 1 9\n",
        1,
        1,
        &[5],
    ),
    (
        GENERAL,
        "\r\n%\r\n1 1 1\r\n\r\n \r\n1 1 5\r\n\r\n\t% \r\n",
        1,
        1,
        &[5],
    ),
    (GENERAL, "1 1 1\n\r\n1 1 5\n\r\n", 1, 1, &[5]),
    (GENERAL, "1 1 1\n1 1 5\n\r", 1, 1, &[5]),
    (
        GENERAL,
        "% \u{e9}\u{0}\u{b}\u{c} a\rb \r\r\n1 1 0\n",
        1,
        1,
        &[0],
    ),
    (ARRAY, "% a\n2 1\n% b\n1\n\n% c\n2\n% d\n", 2, 1, &[1, 2]),
    (ARRAY_SKEW, "1 1\n% c\n\n", 1, 1, &[0]),
];

/// Symmetric, skew-symmetric and pattern files.
pub(crate) const MIRRORED: [Good; 19] = [
    (SYMMETRIC, "2 2 2\n2 1 3\n1 1 4\n", 2, 2, &[4, 3, 3, 0]),
    (SYMMETRIC, "2 2 1\n1 2 3\n", 2, 2, &[0, 3, 3, 0]),
    (SYMMETRIC, "2 2 2\n1 2 3\n2 1 4\n", 2, 2, &[0, 7, 7, 0]),
    (SYMMETRIC, "1 1 2\n1 1 3\n1 1 3\n", 1, 1, &[6]),
    (
        SYMMETRIC,
        "2 2 2\n2 1 140737488355327\n1 2 -140737488355327\n",
        2,
        2,
        &[0, 0, 0, 0],
    ),
    (SKEW, "3 3 1\n3 1 5\n", 3, 3, &[0, 0, -5, 0, 0, 0, 5, 0, 0]),
    (SKEW, "2 2 1\n1 2 5\n", 2, 2, &[0, 5, -5, 0]),
    (SKEW, "2 2 2\n2 1 5\n1 2 5\n", 2, 2, &[0, 0, 0, 0]),
    (SKEW, "2 2 1\n2 2 0\n", 2, 2, &[0, 0, 0, 0]),
    (SKEW, "2 2 2\n1 1 -0\n2 2 +000\n", 2, 2, &[0, 0, 0, 0]),
    (
        SKEW,
        "2 2 1\n2 1 -140737488355327\n",
        2,
        2,
        &[0, 140737488355327, -140737488355327, 0],
    ),
    (PATTERN, "2 3 2\n1 3\n2 1\n", 2, 3, &[0, 0, 1, 1, 0, 0]),
    (PATTERN, "1 1 3\n1 1\n1 1\n1 1\n", 1, 1, &[3]),
    (PATTERN, "2 2 1\n+02\t1", 2, 2, &[0, 0, 1, 0]),
    (PATTERN, "3 1 0\r\n", 3, 1, &[0, 0, 0]),
    (PATTERN_SYMMETRIC, "2 2 1\n2 1\n", 2, 2, &[0, 1, 1, 0]),
    (PATTERN_SYMMETRIC, "2 2 2\n1 1\n1 2\n", 2, 2, &[1, 1, 1, 0]),
    (
        PATTERN_SYMMETRIC,
        "2 2 3\n2 2\n1 2\n2 1",
        2,
        2,
        &[0, 2, 2, 1],
    ),
    (PATTERN_SYMMETRIC, "1 1 2\n1 1\n1 1\n", 1, 1, &[2]),
];

/// Array files, whose values come column by column.
pub(crate) const ARRAYS: [Good; 10] = [
    (ARRAY, "2 2\n1\n3\n2\n4\n", 2, 2, &[1, 2, 3, 4]),
    (ARRAY, "2 3\n1\n2\n3\n4\n5\n6\n", 2, 3, &[1, 3, 5, 2, 4, 6]),
    (
        ARRAY,
        "3 2\n 1\n2 \n\t3\n4\t\n+5\n06",
        3,
        2,
        &[1, 4, 2, 5, 3, 6],
    ),
    (ARRAY, "1 1\n-0\n", 1, 1, &[0]),
    (ARRAY_SYMMETRIC, "1 1\n5\n", 1, 1, &[5]),
    (
        ARRAY_SYMMETRIC,
        "3 3\n1\n2\n3\n4\n5\n6\n",
        3,
        3,
        &[1, 2, 3, 2, 4, 5, 3, 5, 6],
    ),
    (ARRAY_SKEW, "1 1\n", 1, 1, &[0]),
    (ARRAY_SKEW, "2 2\n-7\n", 2, 2, &[0, 7, -7, 0]),
    (
        ARRAY_SKEW,
        "3 3\n1\n2\n3\n",
        3,
        3,
        &[0, -1, -2, 1, 0, -3, 2, 3, 0],
    ),
    (
        ARRAY,
        "1 2\n140737488355327\n-140737488355327",
        1,
        2,
        &[140737488355327, -140737488355327],
    ),
];

/// First lines in other letters and with other blanks.
pub(crate) const BANNERS: [Good; 6] = [
    (
        NONE,
        "%%matrixmarket MATRIX Coordinate Integer General\r\n% c\r\n\r\n2 2 1\r\n 1\t2  +007",
        2,
        2,
        &[0, 7, 0, 0],
    ),
    (
        NONE,
        " \t %%MatrixMarket\tmatrix \t coordinate integer general \t\n1 1 1\n1 1 5\n",
        1,
        1,
        &[5],
    ),
    (
        NONE,
        "%%MATRIXMARKET MATRIX ARRAY INTEGER GENERAL\n1 1\n5",
        1,
        1,
        &[5],
    ),
    (
        NONE,
        "%%mAtRiXmArKeT mAtRiX cOoRdInAtE pAtTeRn SyMmEtRiC\n1 1 1\n1 1\n",
        1,
        1,
        &[1],
    ),
    (
        NONE,
        "%%MatrixMarket matrix array integer Skew-Symmetric\r\n2 2\r\n\r\n4\r\n",
        2,
        2,
        &[0, -4, 4, 0],
    ),
    (
        NONE,
        "%%MatrixMarket matrix ARRAY integer SYMMETRIC \r\n2 2\n1\n2\n3\n",
        2,
        2,
        &[1, 2, 2, 3],
    ),
];
