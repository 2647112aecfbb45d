//! Texts with their first bad lines.

use crate::heads::{
    ARRAY, ARRAY_SKEW, ARRAY_SYMMETRIC, GENERAL, NONE, PATTERN, PATTERN_SYMMETRIC, SKEW, SYMMETRIC,
};

/// A text, as its first line and the rest, and the number of its first bad line.
pub(crate) type Bad = (&'static str, &'static str, u64);

/// A banner of a text that isn't read, and the place of the first word that isn't known.
pub(crate) type Unsupported = (&'static str, u8);

/// A text whose size line has too many cells, and the rows and columns.
pub(crate) type TooLarge = (&'static str, &'static str, u32, u32);

/// Texts without a banner, which are bad at line 1.
pub(crate) const BANNER: [&str; 17] = [
    "",
    "\n",
    "\r\n",
    "1 1\n5\n",
    "% c\n%%MatrixMarket matrix array integer general\n1 1\n5\n",
    "\n%%MatrixMarket matrix array integer general\n1 1\n5\n",
    "%%MatrixMarket matrix array integer\n1 1\n5\n",
    "%%MatrixMarket matrix array integer general more\n1 1\n5\n",
    "%%MatrixMarket matrix array integer general %\n1 1\n5\n",
    "%%MatrixMarket",
    "%MatrixMarket matrix array integer general\n1 1\n5\n",
    "%%MatrixMarke matrix array integer general\n1 1\n5\n",
    "%%MatrixMarkets matrix array integer general\n1 1\n5\n",
    "%% MatrixMarket matrix array integer general\n1 1\n5\n",
    "%%MatrixMarket\u{b}matrix array integer general\n1 1\n5\n",
    "\u{feff}%%MatrixMarket matrix array integer general\n1 1\n5\n",
    // wanting words and another first word come before what isn't read
    "%%MatrixMarket vector sparse real",
];

/// Banners of texts that aren't read.
pub(crate) const UNSUPPORTED: [Unsupported; 21] = [
    ("%%MatrixMarket vector array integer general\n1 1\n5\n", 2),
    ("%%MatrixMarket matrices array integer general\n1 1\n5\n", 2),
    ("%%MatrixMarket vector sparse real hermitian\n", 2),
    ("%%MatrixMarket matrix sparse integer general\n1 1\n5\n", 3),
    ("%%MatrixMarket matrix sparse real hermitian\n", 3),
    (
        "%%MatrixMarket matrix coordinates integer general\n1 1 0\n",
        3,
    ),
    (
        "%%MatrixMarket matrix array real general\n2 2\n1\n3\n2\n4\n",
        4,
    ),
    ("%%MatrixMarket matrix coordinate complex general", 4),
    ("%%MatrixMarket matrix array real hermitian\n", 4),
    ("%%MatrixMarket matrix array Integers general\n", 4),
    ("%%MatrixMarket matrix array integer hermitian\n1 1\n5\n", 5),
    ("%%MatrixMarket matrix array integer skewsymmetric\n", 5),
    ("%%MatrixMarket matrix array integer skew_symmetric\n", 5),
    ("%%MatrixMarket matrix array integer general,\n1 1\n5\n", 5),
    (
        "%%MatrixMarket matrix array integer general\r\r\n1 1\n5\n",
        5,
    ),
    (
        "%%MatrixMarket matrix array integer general\u{0}\n1 1\n5\n",
        5,
    ),
    ("%%MatrixMarket matrix array pattern general\n1 1\n5\n", 4),
    ("%%MatrixMarket matrix array pattern symmetric\n1 1\n5\n", 4),
    (
        "%%MatrixMarket matrix array pattern skew-symmetric\n1 1\n",
        4,
    ),
    ("%%MatrixMarket matrix array pattern hermitian\n", 5),
    (
        "%%MatrixMarket matrix coordinate pattern skew-symmetric\n1 1 0\n",
        5,
    ),
];

/// No size line.
pub(crate) const SIZE: [Bad; 40] = [
    // the file ends first
    (GENERAL, "", 2),
    (NONE, "%%MatrixMarket matrix array integer general", 2),
    (GENERAL, "\n\n% c\n", 5),
    (GENERAL, "\n\n% c", 5),
    (GENERAL, "\r", 3),
    // another number of words
    (GENERAL, "1 1\n", 2),
    (GENERAL, "1 1 0 0\n", 2),
    (PATTERN, "1 1\n1 1\n", 2),
    (ARRAY, "1\n1\n", 2),
    (ARRAY, "1 1 1\n1\n", 2),
    (ARRAY_SYMMETRIC, "1 1 1\n1\n", 2),
    (GENERAL, "1 1 0 % c\n", 2),
    // a word that is no integer
    (GENERAL, "1.0 1 0\n", 2),
    (GENERAL, "x 1 0\n", 2),
    (GENERAL, "1 x 0\n", 2),
    (GENERAL, "1 1 0x0\n", 2),
    (GENERAL, "+ 1 0\n", 2),
    (GENERAL, "- 1 0\n", 2),
    (GENERAL, "++1 1 0\n", 2),
    (GENERAL, "1 1 0\r\r\n", 2),
    (GENERAL, "1 1 0\u{c}\n", 2),
    (GENERAL, "1,1,0\n", 2),
    (GENERAL, "% c\n\nx\n", 4),
    // the bounds
    (GENERAL, "0 1 0\n", 2),
    (GENERAL, "1 0 0\n", 2),
    (GENERAL, "-1 1 0\n", 2),
    (GENERAL, "1 1 -1\n", 2),
    (ARRAY, "0 0\n", 2),
    (GENERAL, "2147483648 1 0\n", 2),
    (GENERAL, "1 2147483648 0\n", 2),
    (GENERAL, "1 1 2147483648\n", 2),
    (GENERAL, "4294967297 1 0\n", 2),
    (GENERAL, "1 1 170141183460469231731687303715884105728\n", 2),
    (GENERAL, "170141183460469231731687303715884105729 1 0\n", 2),
    // a symmetric matrix that isn't square, too large or not
    (SYMMETRIC, "2 3 0\n", 2),
    (SKEW, "3 2 0\n", 2),
    (ARRAY_SYMMETRIC, "2 1\n1\n2\n", 2),
    (ARRAY_SKEW, "1 2\n", 2),
    (PATTERN_SYMMETRIC, "1 2 0\n", 2),
    (SYMMETRIC, "1 67108865 0\n", 2),
];

/// Size lines of too many cells.
pub(crate) const TOO_LARGE: [TooLarge; 9] = [
    (GENERAL, "8193 8193 0\n", 8193, 8193),
    (GENERAL, "67108865 1 0\n", 67108865, 1),
    (GENERAL, "% c\n1 67108865 0", 1, 67108865),
    (
        GENERAL,
        "2147483647 2147483647 2147483647\n1 1 x\n",
        2147483647,
        2147483647,
    ),
    (GENERAL, "+8193 08193 0\n", 8193, 8193),
    (ARRAY, "2 33554433\n1\n", 2, 33554433),
    (ARRAY_SKEW, "8193 8193\n", 8193, 8193),
    (SYMMETRIC, "8193 8193 1\n0 0 x\n", 8193, 8193),
    (PATTERN, "65536 1025 0\n", 65536, 1025),
];

/// No entry line.
pub(crate) const ENTRY: [Bad; 42] = [
    // another number of words
    (GENERAL, "1 1 1\n1 1\n", 3),
    (GENERAL, "1 1 1\n1 1 1 1\n", 3),
    (GENERAL, "1 1 1\n1\n1\n1\n", 3),
    (GENERAL, "1 1 1\n1 1 5 % c\n", 3),
    (PATTERN, "1 1 1\n1 1 1\n", 3),
    (PATTERN, "1 1 1\n1\n", 3),
    (ARRAY, "1 1\n1 1\n", 3),
    (ARRAY, "2 1\n1 2\n", 3),
    (ARRAY_SKEW, "2 2\n2 1 5\n", 3),
    // a word that is no integer
    (GENERAL, "1 1 1\n1 1 x\n", 3),
    (GENERAL, "1 1 1\nx 1 1\n", 3),
    (GENERAL, "1 1 1\n1 x 1\n", 3),
    (GENERAL, "1 1 1\n1 1 1.0\n", 3),
    (GENERAL, "1 1 1\n1 1 1e2\n", 3),
    (GENERAL, "1 1 1\n1 1 0x1\n", 3),
    (GENERAL, "1 1 1\n1 1 +\n", 3),
    (GENERAL, "1 1 1\n1 1 -\n", 3),
    (GENERAL, "1 1 1\n1 1 --1\n", 3),
    (GENERAL, "1 1 1\n1 1 +-1\n", 3),
    (GENERAL, "1 1 1\n1 1 5-\n", 3),
    (GENERAL, "1 1 1\n1 1 5%\n", 3),
    (GENERAL, "1 1 1\n1 1 5,\n", 3),
    (
        GENERAL,
        "1 1 1\n1 1 999999999999999999999999999999999999999999x\n",
        3,
    ),
    // blanks are spaces and tabs alone
    (GENERAL, "1 1 1\n1 1 5\r\r\n", 3),
    (GENERAL, "1 1 1\n1 1 5\r\r", 3),
    (GENERAL, "1 1 1\n1\r1 5\n", 3),
    (GENERAL, "1 1 1\n1\u{b}1 5\n", 3),
    (GENERAL, "1 1 1\n1\u{c}1 5\n", 3),
    (GENERAL, "1 1 1\n1 1 5\u{0}\n", 3),
    (GENERAL, "1 1 1\n1 1\u{a0}5\n", 3),
    (GENERAL, "1 1 1\n1 1 \u{661}\n", 3),
    (GENERAL, "1 1 1\n \r\r\n1 1 5\n", 3),
    // before an index and a value out of bounds
    (GENERAL, "1 1 1\n2 1 x\n", 3),
    (GENERAL, "1 1 1\n0 0\n", 3),
    (SKEW, "1 1 1\n1 1 7x\n", 3),
    // a middle line and the last
    (GENERAL, "1 1 3\n1 1 1\nz\n1 1 1\n", 4),
    (GENERAL, "1 1 3\n1 1 1\n1 1 1\n1 1", 5),
    (GENERAL, "1 1 2\n% c\n\n1 1 1\n% d\n1 1\n", 7),
    (PATTERN_SYMMETRIC, "2 2 2\n2 1\n1 x\n", 4),
    (ARRAY, "2 2\n1\n2\n+\n4\n", 5),
    (ARRAY, "1 2\n1\n1;", 4),
    (ARRAY_SKEW, "2 2\n% c\nx\n", 4),
];

/// An index that isn't in bounds.
pub(crate) const INDEX: [Bad; 24] = [
    (GENERAL, "2 3 1\n0 1 1\n", 3),
    (GENERAL, "2 3 1\n3 1 1\n", 3),
    (GENERAL, "2 3 1\n1 0 1\n", 3),
    (GENERAL, "2 3 1\n1 4 1\n", 3),
    (GENERAL, "2 3 1\n-1 1 1\n", 3),
    (GENERAL, "2 3 1\n1 -0 1\n", 3),
    (GENERAL, "2 3 1\n1 2147483649 1\n", 3),
    (GENERAL, "2 3 1\n4294967297 1 1\n", 3),
    (GENERAL, "2 3 1\n1 18446744073709551617 1\n", 3),
    (GENERAL, "67108864 1 1\n67108865 1 1\n", 3),
    (GENERAL, "1 67108864 1\n1 67108865 1\n", 3),
    // wide words are of an integer's form
    (
        GENERAL,
        "1 1 1\n170141183460469231731687303715884105728 1 1\n",
        3,
    ),
    (
        GENERAL,
        "1 1 1\n1 170141183460469231731687303715884105728 1\n",
        3,
    ),
    (
        GENERAL,
        "1 1 1\n1 -170141183460469231731687303715884105729 1\n",
        3,
    ),
    (
        PATTERN,
        "1 1 1\n999999999999999999999999999999999999999999999999 1\n",
        3,
    ),
    // before a value on the diagonal and one out of range
    (GENERAL, "1 1 1\n2 1 140737488355328\n", 3),
    (
        GENERAL,
        "1 1 1\n0 1 999999999999999999999999999999999999999999999999\n",
        3,
    ),
    (SKEW, "2 2 1\n3 3 1\n", 3),
    (SYMMETRIC, "2 2 1\n2 3 1\n", 3),
    (PATTERN, "2 3 1\n3 1\n", 3),
    (PATTERN_SYMMETRIC, "2 2 1\n0 2\n", 3),
    // a middle line and the last
    (GENERAL, "2 2 3\n1 1 1\n2 3 1\n2 2 x\n", 4),
    (GENERAL, "2 2 2\n1 1 1\n% c\n2 0 1", 5),
    (PATTERN, "2 2 3\n1 1\n2 2\n2 3\n", 5),
];

/// A value on the diagonal of a skew-symmetric matrix.
pub(crate) const DIAGONAL: [Bad; 8] = [
    (SKEW, "3 3 1\n2 2 1\n", 3),
    (SKEW, "2 2 1\n1 1 -1\n", 3),
    (SKEW, "3 3 1\n3 3 +01\n", 3),
    (SKEW, "2 2 1\n1 1 140737488355328\n", 3),
    (
        SKEW,
        "2 2 1\n1 1 170141183460469231731687303715884105728\n",
        3,
    ),
    (SKEW, "2 2 3\n1 1 0\n2 2 7\n1 2 x\n", 4),
    (SKEW, "2 2 2\n2 1 1\n1 1 1\n", 4),
    (SKEW, "2 2 3\n2 1 1\n% c\n1 2 1\n02 +2 5", 6),
];

/// A value or a sum that isn't in range.
pub(crate) const RANGE: [Bad; 24] = [
    (ARRAY, "1 1\n140737488355328\n", 3),
    (GENERAL, "1 1 2\n1 1 140737488355327\n1 1 1\n", 4),
    (GENERAL, "1 1 1\n1 1 140737488355328\n", 3),
    (GENERAL, "1 1 1\n1 1 -140737488355328\n", 3),
    (GENERAL, "1 1 1\n1 1 9223372036854775808\n", 3),
    (GENERAL, "1 1 1\n1 1 18446744073709551617\n", 3),
    // wide words, and the ends of 128 bits
    (
        GENERAL,
        "1 1 1\n1 1 170141183460469231731687303715884105727\n",
        3,
    ),
    (
        GENERAL,
        "1 1 1\n1 1 170141183460469231731687303715884105728\n",
        3,
    ),
    (
        GENERAL,
        "1 1 1\n1 1 -170141183460469231731687303715884105728\n",
        3,
    ),
    (
        GENERAL,
        "1 1 1\n1 1 -170141183460469231731687303715884105729\n",
        3,
    ),
    (
        GENERAL,
        "1 1 1\n1 1 340282366920938463463374607431768211457\n",
        3,
    ),
    (
        ARRAY,
        "1 1\n999999999999999999999999999999999999999999999999\n",
        3,
    ),
    (
        SYMMETRIC,
        "1 1 1\n1 1 170141183460469231731687303715884105728\n",
        3,
    ),
    (
        SKEW,
        "2 2 1\n2 1 170141183460469231731687303715884105728\n",
        3,
    ),
    // sums, which no later line brings back
    (GENERAL, "1 1 3\n1 1 140737488355327\n1 1 1\n1 1 -1\n", 4),
    (GENERAL, "1 1 2\n1 1 -140737488355327\n1 1 -1\n", 4),
    (GENERAL, "1 1 3\n1 1 1\n1 1 140737488355327\n1 1 x\n", 4),
    (SYMMETRIC, "2 2 2\n2 1 140737488355327\n1 2 1\n", 4),
    (SKEW, "2 2 2\n2 1 140737488355327\n1 2 -1\n", 4),
    (SKEW, "2 2 3\n2 1 -140737488355327\n1 1 0\n2 1 -1", 5),
    // a middle line and the last
    (ARRAY, "2 2\n1\n140737488355328\n3\nx\n", 4),
    (ARRAY, "2 1\n1\n-140737488355328", 4),
    (ARRAY_SYMMETRIC, "2 2\n1\n2\n140737488355328\n", 5),
    (ARRAY_SKEW, "2 2\n140737488355328\n", 3),
];

/// Entries are missing at the end.
pub(crate) const TOO_FEW: [Bad; 19] = [
    (GENERAL, "1 1 1\n", 3),
    (GENERAL, "1 1 1", 3),
    (GENERAL, "2 2 3\n1 1 1\n2 2 1\n", 5),
    (GENERAL, "2 2 3\n1 1 1\n2 2 1", 5),
    (GENERAL, "1 1 2\n1 1 1\n% c\n\n", 6),
    (GENERAL, "1 1 2\n1 1 1\n% c", 5),
    (GENERAL, "1 1 1\n\r", 4),
    (GENERAL, "1 1 2147483647\n1 1 1\n", 4),
    (PATTERN, "1 1 2\n1 1\n", 4),
    (SYMMETRIC, "2 2 2\n2 1 1\n", 4),
    (SKEW, "2 2 2\n2 1 1\n", 4),
    (ARRAY, "2 2\n1\n2\n3\n", 6),
    (ARRAY_SYMMETRIC, "2 2\n1\n2\n", 5),
    (ARRAY_SKEW, "2 2\n", 3),
    (ARRAY_SKEW, "3 3\n1\n2", 5),
    // as many cells as there may be
    (GENERAL, "8192 8192 1\n", 3),
    (GENERAL, "67108864 1 1\n", 3),
    (GENERAL, "1 67108864 1\n", 3),
    (ARRAY, "8192 8192\n1\n", 4),
];

/// A line after the last entry.
pub(crate) const TOO_MANY: [Bad; 16] = [
    (GENERAL, "1 1 0\n1 1 1\n", 3),
    (GENERAL, "1 1 1\n1 1 1\n1 1 1\n", 4),
    (GENERAL, "1 1 1\n1 1 1\n1 1 1", 4),
    // whatever it holds
    (GENERAL, "1 1 1\n1 1 1\nxyz\n", 4),
    (GENERAL, "1 1 1\n1 1 1\n9 9 9\n", 4),
    (GENERAL, "1 1 1\n1 1 1\n% c\n\nx", 6),
    (GENERAL, "1 1 0\n\r\r\n", 3),
    (GENERAL, "1 1 0\n\u{0}", 3),
    (GENERAL, "1 1 0\n\u{c}\n", 3),
    (GENERAL, "1 1 1\n1 1 1\n\n0\n1 1 x\n", 5),
    (PATTERN, "1 1 1\n1 1\n1 1\n", 4),
    (ARRAY, "1 1\n1\n2\n", 4),
    (ARRAY, "2 1\n1\n2\n3", 5),
    (ARRAY_SYMMETRIC, "2 2\n1\n2\n3\n4\n", 6),
    (ARRAY_SKEW, "1 1\n0\n", 3),
    (ARRAY_SKEW, "1 1\n%\nq\n", 4),
];
