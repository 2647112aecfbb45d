//! How many bytes columns take as one group, of each kind, and which kind takes the fewest.

ghost use Rattle.std.specs.Prelude.{◌≡◌, ◌≤◌, ◌<◌, ◌^◌};
ghost use Rattle.cla_grouping.specs.Sizes.{AreSmall, IsLeast, IsPast, plain_bytes, codes_bytes, offsets_bytes};
ghost use Rattle.cla_grouping.specs.Sizes.{runs_bytes, code_bytes_of, segments_of, best_of, lesser_of, with_tuples_of};

use cla_layout::Kind;

/// What the sizes of columns hang on: how many columns and rows there are, how many distinct tuples, and
/// of those that are listed, which are all but the tuple of zeros, the tuples, their rows and their
/// maximal runs.
#[derive(Clone, Copy, Debug, PartialEq, Eq)]
pub struct Figures {
    pub width: u32,
    pub rows: u32,
    pub distinct: u32,
    pub listed: u32,
    pub listed_rows: u32,
    pub listed_runs: u32,
}

/// A kind, and the bytes of a group of this kind.
#[derive(Clone, Copy, Debug, PartialEq, Eq)]
pub struct KindBytes {
    pub kind: Kind,
    pub bytes: u64,
}

/// How many rows a segment of offsets has.
const SEGMENT_ROWS: u64 = 32768;

/// The bytes of a plain group.
pub fn plain_size(f: Figures) -> u64
    requires { AreSmall f }
    ensures value { result ≡ plain_bytes f.rows f.width }
    ensures small { result < 2 ^ 62 }
{
    5 + 4 * f.width as u64 + 8 * (f.rows as u64 * f.width as u64)
}

/// The bytes of a group of one code for each row.
pub fn codes_size(f: Figures) -> u64
    requires { AreSmall f }
    ensures value { result ≡ codes_bytes f }
    ensures small { result < 2 ^ 62 }
{
    let values = 8 * (f.distinct as u64 * f.width as u64);
    5 + 4 * f.width as u64 + 4 + values + f.rows as u64 * code_bytes(f.distinct)
}

/// The bytes of a group of offset lists.
pub fn offsets_size(f: Figures) -> u64
    requires { AreSmall f }
    ensures value { result ≡ offsets_bytes f }
    ensures small { result < 2 ^ 62 }
{
    let values = 8 * (f.listed as u64 * f.width as u64);
    let lists = 2 * (segments(f.rows) * f.listed as u64) + 2 * f.listed_rows as u64;
    5 + 4 * f.width as u64 + 5 + values + lists
}

/// The bytes of a group of runs.
pub fn runs_size(f: Figures) -> u64
    requires { AreSmall f }
    ensures value { result ≡ runs_bytes f }
    ensures small { result < 2 ^ 62 }
{
    let values = 8 * (f.listed as u64 * f.width as u64);
    5 + 4 * f.width as u64 + 5 + values + 4 * f.listed as u64 + 8 * f.listed_runs as u64
}

/// The kind of the fewest bytes, the lower kind on a tie.
pub fn best(f: Figures) -> KindBytes
    requires { AreSmall f }
    ensures value { result ≡ best_of f }
    ensures least { IsLeast f result }
    ensures small { result.bytes < 2 ^ 62 }
{
    let plain = KindBytes {
        kind: Kind::Plain,
        bytes: plain_size(f),
    };
    let codes = KindBytes {
        kind: Kind::Codes,
        bytes: codes_size(f),
    };
    let offsets = KindBytes {
        kind: Kind::Offsets,
        bytes: offsets_size(f),
    };
    let runs = KindBytes {
        kind: Kind::Runs,
        bytes: runs_size(f),
    };
    lesser(lesser(lesser(plain, codes), offsets), runs)
}

// The lesser of two, and the first on a tie.
fn lesser(a: KindBytes, b: KindBytes) -> KindBytes
    ensures { result ≡ lesser_of a b }
{
    if b.bytes < a.bytes { b } else { a }
}

// The fewest bytes, of one, two and four, that can name so many tuples.
fn code_bytes(distinct: u32) -> u64
    ensures value { result ≡ code_bytes_of distinct }
    ensures small { result ≤ 4 }
{
    if distinct <= 1 << 8 {
        1
    } else if distinct <= 1 << 16 {
        2
    } else {
        4
    }
}

// How many segments there are.
fn segments(rows: u32) -> u64
    ensures value { result ≡ segments_of rows }
    ensures small { result ≤ 2 ^ 18 }
{
    (rows as u64 + SEGMENT_ROWS - 1) / SEGMENT_ROWS
}

/// With more tuples than this no group is smaller than the target, where all its figures are no less
/// than these. It is the least number of which that is known by the sizes; found in 32 steps.
pub fn most_tuples(f: Figures, target: u64) -> u32
    requires { AreSmall f }
    ensures { IsPast f target result }
{
    let mut low = 0;
    let mut high = f.rows;
    for _ in 0..32 {
        let middle = low + (high - low) / 2;
        if middle < high {
            if target <= best(with_tuples(f, middle + 1)).bytes {
                high = middle;
            } else {
                low = middle + 1;
            }
        }
    }
    high
}

// These figures with so many tuples at least.
fn with_tuples(f: Figures, distinct: u32) -> Figures
    requires some { 1 ≤ distinct }
    ensures { result ≡ with_tuples_of f distinct }
{
    Figures {
        distinct: f.distinct.max(distinct),
        listed: f.listed.max(distinct - 1),
        ..f
    }
}
