//! Plain entry lines of a general file whose table keeps all cells. Nearly all lines of a great file are such. One loop
//! goes over the bytes that are held, and the input is told of all its lines at once.

ghost use Rattle.std.specs.Prelude.{◌≡◌, ℕ, ◌+◌, ◌<◌, ◌≤◌, false, true, Ok};
ghost use Rattle.cla_io.specs.State.{left};
ghost use Rattle.cla_io.specs.Lines.{ahead_of};
ghost use Rattle.cla_io.specs.Ahead.{AreLines};
ghost use Rattle.cla_num.specs.Bits.{IsSupported};
ghost use Rattle.cla_market.specs.Entries.{entry_in};
ghost use Rattle.cla_market.specs.Texts.{AtEntries, with_line, is_skipped};
ghost use Rattle.cla_market_lines.specs.Lines.{triple_of};
ghost use Rattle.cla_mtx.specs.Phases.{IsReady, HasTriples, TakesTriple, EntriesDecide, DecidesOver};

use crate::entries::Entries;
use crate::next_cell::cell_after;
use crate::plain::plain_entry;
use cla_io::{Files, Input};
use cla_market::{Banner, Field, Format, Size, Symmetry};
use cla_market_lines::Entry;
use cla_num::Number;
use cla_table::{DenseTriples, Triples};
use std::alloc::Global;
use std::mem;

/// How many lines were taken, and how many bytes they have with their LFs.
#[derive(Clone, Copy)]
pub(crate) struct Lines {
    pub(crate) count: u64,
    pub(crate) width: usize,
}

/// Takes the plain entry lines that come next, as many as are held, if the file is general and its
/// table keeps all cells.
pub(crate) fn take_dense<N: Number, F: Files>(
    alloc: Global,
    entries: &mut Entries<Triples<N>>,
    input: &mut Input<'_, F>,
)
    requires bits { IsSupported N.BITS }
    requires ready { IsReady N.BITS entries.old }
    ensures ready { IsReady N.BITS entries.new }
    ensures same_reference { input.new.files.ghost_name ≡ input.old.files.ghost_name }
    ensures same_files { input.new.files.now ≡ input.old.files.now }
    ensures limit { input.new.taken.limit ≡ input.old.taken.limit }
    ensures later { input.old.taken.lines ≤ input.new.taken.lines }
    ensures reads { let p = input.old.taken in
        let before = ahead_of p (left (F.state input.old.files.now)) in
        let after = ahead_of input.new.taken (left (F.state input.new.files.now)) in
        (whole : _) → EntriesDecide N.BITS p.limit p.at (p.lines + 1) entries.old before whole
        → EntriesDecide N.BITS p.limit input.new.taken.at (input.new.taken.lines + 1) entries.new after whole }
{
    let Lines { count, width } = add_held(alloc, entries, input.ahead_in_limit());
    input.take_lines(count, width);
}

// Adds the entries of the plain lines with which these bytes begin, if the file is general and its
// table keeps all cells.
fn add_held<N: Number>(alloc: Global, entries: &mut Entries<Triples<N>>, bytes: &[u8]) -> Lines
    requires bits { IsSupported N.BITS }
    requires ready { IsReady N.BITS entries.old }
    ensures ready { IsReady N.BITS entries.new }
    ensures lines { AreLines bytes.now result.count result.width }
    ensures reads { DecidesOver N.BITS entries.old entries.new bytes.now result.count result.width }
{
    let Size { rows, cols, .. } = entries.size;
    let empty = Triples::new(alloc, rows, cols);
    match mem::replace(&mut entries.table, empty).into_dense() {
        Ok(table) => {
            let dense = Entries {
                banner: entries.banner,
                size: entries.size,
                count: entries.count,
                next: entries.next,
                table,
            };
            let (dense, lines) = add_general(dense, bytes);
            *entries = Entries {
                banner: dense.banner,
                size: dense.size,
                count: dense.count,
                next: dense.next,
                table: Triples::of_dense(alloc, dense.table),
            };
            lines
        }
        Err(table) => {
            entries.table = table;
            Lines { count: 0, width: 0 }
        }
    }
}

// The same for a table that keeps all cells. (Each kind of file has a copy of the loop, which doesn't
// ask for the kind.)
fn add_general<N: Number>(
    entries: Entries<DenseTriples<N>>,
    bytes: &[u8],
) -> (Entries<DenseTriples<N>>, Lines)
    requires bits { IsSupported N.BITS }
    requires ready { IsReady N.BITS entries }
    ensures ready { IsReady N.BITS result.0 }
    ensures lines { AreLines bytes.now result.1.count result.1.width }
    ensures reads { DecidesOver N.BITS entries result.0 bytes.now result.1.count result.1.width }
{
    let Banner {
        format,
        field,
        symmetry,
    } = entries.banner;
    match (format, field, symmetry) {
        (Format::Coordinate, Field::Integer, Symmetry::General) => add_lines(entries, bytes),
        (Format::Array, _, Symmetry::General) => add_lines(entries, bytes),
        _ => (entries, Lines { count: 0, width: 0 }),
    }
}

// The same for a general file.
#[inline(always)]
fn add_lines<N: Number>(
    mut entries: Entries<DenseTriples<N>>,
    bytes: &[u8],
) -> (Entries<DenseTriples<N>>, Lines)
    requires bits { IsSupported N.BITS }
    requires ready { IsReady N.BITS entries }
    requires general { entries.banner.symmetry ≡ Symmetry.General }
    ensures ready { IsReady N.BITS result.0 }
    ensures lines { AreLines bytes.now result.1.count result.1.width }
    ensures reads { DecidesOver N.BITS entries result.0 bytes.now result.1.count result.1.width }
{
    let mut lines = Lines { count: 0, width: 0 };
    'plain: loop {
        let Some((entry, place)) = plain_entry(
            entries.banner,
            entries.size,
            entries.count,
            entries.next,
            &bytes[lines.width..],
        ) else {
            return (entries, lines);
        };
        if !put_general(&mut entries, entry) {
            return (entries, lines);
        }
        lines.count += 1;
        lines.width += place + 1;
    }
}

// Takes the next entry of a general file, if its sum is in range; nothing changes otherwise.
#[inline(always)]
fn put_general<N: Number>(entries: &mut Entries<DenseTriples<N>>, entry: Entry<N>) -> bool
    requires bits { IsSupported N.BITS }
    requires ready { IsReady N.BITS entries.old }
    requires general { entries.old.banner.symmetry ≡ Symmetry.General }
    requires more { entries.old.count < entries.old.size.entries }
    requires row { entry.row < entries.old.size.rows }
    requires col { entry.col < entries.old.size.cols }
    requires cell { let next = entries.old.next in
        entries.old.banner.format ≡ Format.Array → (entry.row ≡ next.row) × (entry.col ≡ next.col) }
    ensures ready { result ≡ true → IsReady N.BITS entries.new }
    ensures banner { entries.new.banner ≡ entries.old.banner }
    ensures same { result ≡ false → entries.new ≡ entries.old }
    ensures takes { let e = entries.old in
        result ≡ true → (number : ℕ) (words : _) → is_skipped words ≡ false
        → Ok (triple_of N.value entry) ≡ entry_in N.BITS e.banner e.size e.count words
        → (ts : _) → HasTriples e ts
        → TakesTriple entries.new (with_line N.BITS number (AtEntries e.banner e.size ts) words) }
{
    let Entry { row, col, value } = entry;
    let rows = entries.size.rows;
    // (what is read has its type's range)
    let _most = entries.size.entries;
    if !entries.table.add(row, col, value) {
        return false;
    }
    entries.count += 1;
    entries.next = cell_after(entries.banner.symmetry, rows, row, col);
    true
}
