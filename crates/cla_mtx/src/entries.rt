//! Entry lines, and the sums of their triples.

ghost use Rattle.std.specs.Prelude.{◌≡◌, ◌<◌, true, false, neg_ℤ, Ok, IfOk, IfErr, OnOk};
ghost use Rattle.cla_num.specs.Bits.{IsSupported};
ghost use Rattle.cla_text.specs.Words.{words_of};
ghost use Rattle.cla_market.specs.Sizes.{is_square};
ghost use Rattle.cla_market.specs.Entries.{entry_in, added_by};
ghost use Rattle.cla_market.specs.Texts.{AtEntries, with_line, fault_at, is_skipped};
ghost use Rattle.cla_market_lines.specs.Lines.{map_ok, triple_of};
ghost use Rattle.cla_mtx.specs.Sums.{AreInRange, AddsAll, HasSumCause};
ghost use Rattle.cla_mtx.specs.Phases.{IsReady, HasTriples, TakesEntry, IsNotRead};

use crate::next_cell::{Cell, cell_after};
use cla_market::{Banner, Field, Format, LineFault, MtxFault, Size, Symmetry};
use cla_market_lines::{
    Entry, is_skipped, read_array_entry, read_coordinate_entry, read_pattern_entry,
};
use cla_num::{CellOp, Meter, Number};
use cla_table::{TableFault, Triples};

/// What was read of the entry lines: how many entries, their sums (`table`), and in an array file the
/// cell of the next one (`next`).
#[derive(Drop)]
pub(crate) struct Entries<T> {
    pub(crate) banner: Banner,
    pub(crate) size: Size,
    pub(crate) count: u32,
    pub(crate) next: Cell,
    pub(crate) table: T,
}

/// Takes a line after the size line.
#[tactic(auto, unfolding(cla_market::specs::Texts::with_line))]
pub(crate) fn take_entry<N: Number>(
    entries: &mut Entries<Triples<N>>,
    number: u64,
    line: &[u8],
) -> Result<(), MtxFault>
    requires bits { IsSupported N.BITS }
    requires ready { IsReady N.BITS entries.old }
    ensures ready { OnOk result (IsReady N.BITS entries.new) }
    ensures no_read { IfErr result IsNotRead }
    ensures takes { let e = entries.old in
        (ts : _) → HasTriples e ts → TakesEntry result entries.new
        (with_line N.BITS number (AtEntries e.banner e.size ts) (words_of line.now)) }
{
    if is_skipped(line) {
        return Ok(());
    }
    if entries.count == entries.size.entries {
        return Err(MtxFault::TooMany { line: number });
    }
    let entry = match read_entry(entries, line) {
        Ok(entry) => entry,
        Err(fault) => return Err(fault_at(number, fault)),
    };
    put_entry(entries, number, entry)
}

/// Takes the next entry, which line `number` gives.
#[inline(always)]
pub(crate) fn put_entry<N: Number>(
    entries: &mut Entries<Triples<N>>,
    number: u64,
    entry: Entry<N>,
) -> Result<(), MtxFault>
    requires bits { IsSupported N.BITS }
    requires ready { IsReady N.BITS entries.old }
    requires more { entries.old.count < entries.old.size.entries }
    requires row { entry.row < entries.old.size.rows }
    requires col { entry.col < entries.old.size.cols }
    requires cell { let next = entries.old.next in
        entries.old.banner.format ≡ Format.Array → (entry.row ≡ next.row) × (entry.col ≡ next.col) }
    ensures ready { OnOk result (IsReady N.BITS entries.new) }
    ensures no_read { IfErr result IsNotRead }
    ensures takes { let e = entries.old in
        (words : _) → is_skipped words ≡ false
        → Ok (triple_of N.value entry) ≡ entry_in N.BITS e.banner e.size e.count words
        → (ts : _) → HasTriples e ts
        → TakesEntry result entries.new (with_line N.BITS number (AtEntries e.banner e.size ts) words) }
{
    let symmetry = entries.banner.symmetry;
    // (what is read has its type's range)
    let _most = entries.size.entries;
    match add_entry(&mut entries.table, symmetry, entry) {
        Ok(()) => (),
        Err(TableFault::OutOfRange { .. }) => return Err(MtxFault::Range { line: number }),
        Err(TableFault::Memory) => return Err(MtxFault::Memory),
    }
    entries.count += 1;
    entries.next = cell_after(symmetry, entries.size.rows, entry.row, entry.col);
    Ok(())
}

// The entry of the next entry line, by the file's kind.
#[tactic(auto, unfolding(cla_market::specs::Entries::entry_in))]
fn read_entry<N: Number>(entries: &Entries<Triples<N>>, line: &[u8]) -> Result<Entry<N>, LineFault>
    requires bits { IsSupported N.BITS }
    requires ready { IsReady N.BITS entries.now }
    requires more { entries.now.count < entries.now.size.entries }
    ensures exact { let e = entries.now in
        map_ok (triple_of N.value) result ≡ entry_in N.BITS e.banner e.size e.count (words_of line.now) }
    ensures row { IfOk result (λ entry. entry.row < entries.now.size.rows) }
    ensures col { IfOk result (λ entry. entry.col < entries.now.size.cols) }
    ensures cell { let next = entries.now.next in
        entries.now.banner.format ≡ Format.Array
        → IfOk result (λ entry. (entry.row ≡ next.row) × (entry.col ≡ next.col)) }
{
    let Banner {
        format,
        field,
        symmetry,
    } = entries.banner;
    let Size { rows, cols, .. } = entries.size;
    match (format, field) {
        (Format::Coordinate, Field::Integer) => read_coordinate_entry(symmetry, rows, cols, line),
        (Format::Coordinate, Field::Pattern) => read_pattern_entry(rows, cols, line),
        (Format::Array, _) => read_array_entry(entries.next.row, entries.next.col, line),
    }
}

// Adds an entry and its mirror image. After an error the table isn't used any more.
#[inline(always)]
fn add_entry<N: Number>(
    table: &mut Triples<N>,
    symmetry: Symmetry,
    entry: Entry<N>,
) -> Result<(), TableFault>
    requires bits { IsSupported N.BITS }
    requires row { entry.row < table.old.rows }
    requires col { entry.col < table.old.cols }
    requires square { is_square symmetry table.old.rows table.old.cols ≡ true }
    requires in_range { AreInRange N.BITS table.old }
    ensures adds { OnOk result (AddsAll table.old table.new (added_by symmetry (triple_of N.value entry))) }
    ensures in_range { OnOk result (AreInRange N.BITS table.new) }
    ensures cause { IfErr result (HasSumCause N.BITS table.old (added_by symmetry (triple_of N.value entry))) }
{
    let Entry { row, col, value } = entry;
    match symmetry {
        Symmetry::General => table.add(row, col, value),
        // a number and its negative add nothing to the diagonal
        Symmetry::SkewSymmetric => {
            if row == col {
                return Ok(());
            }
            table.add(row, col, value)?;
            table.add(col, row, negated(value))
        }
        Symmetry::Symmetric => {
            table.add(row, col, value)?;
            if row == col {
                return Ok(());
            }
            table.add(col, row, value)
        }
    }
}

// The same number with the other sign.
fn negated<N: Number>(v: N) -> N
    requires { IsSupported N.BITS }
    ensures { N.value result ≡ neg_ℤ (N.value v) }
{
    let mut meter = Meter::new();
    let Ok(wide) = N::apply(CellOp::Neg, v, v, &mut meter) else {
        unreachable!("a negation divides by nothing");
    };
    match N::narrow(wide) {
        Some(number) => number,
        None => unreachable!("numbers reach as far below 0 as above"),
    }
}

/// A fault of this line.
pub(crate) fn fault_at(number: u64, fault: LineFault) -> MtxFault
    ensures is { result ≡ fault_at number fault }
    ensures no_read { IsNotRead result }
{
    match fault {
        LineFault::Banner => MtxFault::Banner { line: number },
        LineFault::Unsupported { place } => MtxFault::Unsupported { place },
        LineFault::Size => MtxFault::Size { line: number },
        LineFault::TooLarge { rows, cols } => MtxFault::TooLarge { rows, cols },
        LineFault::Entry => MtxFault::Entry { line: number },
        LineFault::Index => MtxFault::Index { line: number },
        LineFault::Diagonal => MtxFault::Diagonal { line: number },
        LineFault::Range => MtxFault::Range { line: number },
    }
}
