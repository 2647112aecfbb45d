//! Plain entry lines: they are held whole, have no fault, and are read where they lie, in one pass. Every other line
//! is left to the general rules.

ghost use Rattle.std.specs.Prelude.{◌≡◌, ◌<◌, ◌≤◌, ◌+◌, false, Ok, OnOk, IfErr, IfSome};
ghost use Rattle.cla_io.specs.State.{left};
ghost use Rattle.cla_io.specs.Lines.{ahead_of};
ghost use Rattle.cla_spec.specs.Lines.{first_line};
ghost use Rattle.cla_num.specs.Bits.{IsSupported};
ghost use Rattle.cla_text.specs.Words.{words_of};
ghost use Rattle.cla_market.specs.Results.{one_of, three_of};
ghost use Rattle.cla_market.specs.Entries.{coordinate_entry, array_entry, entry_in};
ghost use Rattle.cla_market.specs.Texts.{is_skipped};
ghost use Rattle.cla_market_lines.specs.Plain.{IsEndAt, signed};
ghost use Rattle.cla_market_lines.specs.Lines.{triple_of};
ghost use Rattle.cla_mtx.specs.Phases.{IsReady, IsNextOf, IsNotRead, EntriesDecide, EntriesGoOn};

use crate::entries::{Entries, put_entry};
use crate::next_cell::Cell;
use cla_io::{Files, Input};
use cla_market::{Banner, Field, Format, MtxFault, Size, Symmetry};
use cla_market_lines::{Entry, one_number, three_numbers};
use cla_num::Number;
use cla_table::Triples;

/// The next entry, if the first of these lines is plain and gives it, and the place of the LF behind it.
#[inline(always)]
#[tactic(auto, unfolding(cla_market::specs::Entries::entry_in))]
pub(crate) fn plain_entry<N: Number>(
    banner: Banner,
    size: Size,
    count: u32,
    next: Cell,
    bytes: &[u8],
) -> Option<(Entry<N>, usize)>
    requires bits { IsSupported N.BITS }
    requires few { count ≤ size.entries }
    requires next { IsNextOf banner size count next }
    ensures end { IfSome result (λ r. IsEndAt bytes.now r.1) }
    ensures more { IfSome result (λ r. count < size.entries) }
    ensures some { IfSome result (λ r. is_skipped (words_of (first_line bytes.now)) ≡ false) }
    ensures exact { let words = words_of (first_line bytes.now) in
        IfSome result (λ r. Ok (triple_of N.value r.0) ≡ entry_in N.BITS banner size count words) }
    ensures row { IfSome result (λ r. r.0.row < size.rows) }
    ensures col { IfSome result (λ r. r.0.col < size.cols) }
    ensures cell { IfSome result (λ r. banner.format ≡ Format.Array → (r.0.row ≡ next.row) × (r.0.col ≡ next.col)) }
{
    if count == size.entries {
        return None;
    }
    let Size { rows, cols, .. } = size;
    match (banner.format, banner.field, banner.symmetry) {
        (Format::Coordinate, Field::Integer, Symmetry::General) => plain_coordinate(
            rows, cols, bytes,
        ),
        (Format::Array, _, _) => plain_array(next, bytes),
        _ => None,
    }
}

// The entry of a plain line of a general coordinate file of integers.
#[inline(always)]
fn plain_coordinate<N: Number>(rows: u32, cols: u32, bytes: &[u8]) -> Option<(Entry<N>, usize)>
    requires { IsSupported N.BITS }
    ensures end { IfSome result (λ r. IsEndAt bytes.now r.1) }
    ensures some { IfSome result (λ r. is_skipped (words_of (first_line bytes.now)) ≡ false) }
    ensures exact { let words = words_of (first_line bytes.now) in
        let general = Symmetry.General in
        IfSome result (λ r. Ok (triple_of N.value r.0) ≡ coordinate_entry N.BITS general rows cols (three_of words)) }
    ensures row { IfSome result (λ r. r.0.row < rows) }
    ensures col { IfSome result (λ r. r.0.col < cols) }
{
    let (first, second, minus, size, place) = three_numbers(bytes)?;
    if first < 1 || first > rows as u64 || second < 1 || second > cols as u64 {
        return None;
    }
    let value = number_of(minus, size)?;
    let (row, col) = ((first - 1) as u32, (second - 1) as u32);
    Some((Entry { row, col, value }, place))
}

// The entry of a plain line of an array file, whose cell this is.
#[inline(always)]
fn plain_array<N: Number>(next: Cell, bytes: &[u8]) -> Option<(Entry<N>, usize)>
    requires { IsSupported N.BITS }
    ensures end { IfSome result (λ r. IsEndAt bytes.now r.1) }
    ensures some { IfSome result (λ r. is_skipped (words_of (first_line bytes.now)) ≡ false) }
    ensures exact { let words = words_of (first_line bytes.now) in
        IfSome result (λ r. Ok (triple_of N.value r.0) ≡ array_entry N.BITS (next.row, next.col) (one_of words)) }
    ensures row { IfSome result (λ r. r.0.row ≡ next.row) }
    ensures col { IfSome result (λ r. r.0.col ≡ next.col) }
{
    let (minus, size, place) = one_number(bytes)?;
    let value = number_of(minus, size)?;
    let Cell { row, col } = next;
    Some((Entry { row, col, value }, place))
}

// The number of this sign and size, if it is in range.
#[inline(always)]
fn number_of<N: Number>(minus: bool, size: u64) -> Option<N>
    requires { IsSupported N.BITS }
    ensures { IfSome result (λ n. N.value n ≡ signed minus size) }
{
    let v = i64::try_from(size).ok()?;
    N::of(if minus { -v } else { v })
}

/// Takes the plain entry lines that come next, as many as are held.
pub(crate) fn take_plain<N: Number, F: Files>(
    entries: &mut Entries<Triples<N>>,
    input: &mut Input<'_, F>,
) -> Result<(), MtxFault>
    requires bits { IsSupported N.BITS }
    requires ready { IsReady N.BITS entries.old }
    ensures ready { OnOk result (IsReady N.BITS entries.new) }
    ensures no_read { IfErr result IsNotRead }
    ensures same_reference { input.new.files.ghost_name ≡ input.old.files.ghost_name }
    ensures same_files { input.new.files.now ≡ input.old.files.now }
    ensures limit { input.new.taken.limit ≡ input.old.taken.limit }
    ensures later { input.old.taken.lines ≤ input.new.taken.lines }
    ensures reads { let p = input.old.taken in
        let before = ahead_of p (left (F.state input.old.files.now)) in
        let after = ahead_of input.new.taken (left (F.state input.new.files.now)) in
        (whole : _) → EntriesDecide N.BITS p.limit p.at (p.lines + 1) entries.old before whole
        → EntriesGoOn N.BITS p.limit input.new.taken.at (input.new.taken.lines + 1) entries.new after whole result }
{
    'plain: loop {
        let (banner, size) = (entries.banner, entries.size);
        let Some((entry, place)) = plain_entry(
            banner,
            size,
            entries.count,
            entries.next,
            input.ahead(),
        ) else {
            return Ok(());
        };
        if !input.take_ahead(place) {
            return Ok(());
        }
        match put_entry(entries, input.line_number(), entry) {
            Ok(()) => (),
            Err(fault) => return Err(fault),
        }
    }
}
