//! What the lines that were read say, and what the next one is for.

ghost use Rattle.std.specs.Prelude.{◌≡◌, ◌+◌, ◌≤◌, [], IfOk, IfErr, OnOk};
ghost use Rattle.cla_io.specs.State.{left};
ghost use Rattle.cla_io.specs.Lines.{ahead_of};
ghost use Rattle.cla_num.specs.Bits.{IsSupported};
ghost use Rattle.cla_text.specs.Words.{words_of};
ghost use Rattle.cla_market.specs.Sizes.{size_in};
ghost use Rattle.cla_market.specs.Texts.{with_line, at_end};
ghost use Rattle.cla_market_lines.specs.Lines.{map_ok};
ghost use Rattle.cla_mtx.specs.Phases.{IsReady, IsReadyPhase, HasTriples, HasRead, reading_of, TakesLine};
ghost use Rattle.cla_mtx.specs.Phases.{LeftDecides, GoesOn, EndsAs, IsNotRead, size_of};

use crate::dense::take_dense;
use crate::entries::{Entries, fault_at, take_entry};
use crate::next_cell::first_cell;
use crate::plain::take_plain;
use cla_io::{Files, Input};
use cla_market::{Banner, LineFault, MtxFault};
use cla_market_lines::{is_skipped, read_banner, read_size};
use cla_num::{Dense, Number};
use cla_table::Triples;
use std::alloc::Global;

/// What the next line is for, with what is known before it.
#[derive(Drop)]
pub(crate) enum Phase<E> {
    Banner,
    Size(Banner),
    Entries(E),
}

/// Takes the next line.
#[tactic(auto, unfolding(cla_market::specs::Texts::with_line))]
pub(crate) fn take_line<N: Number>(
    alloc: Global,
    phase: &mut Phase<Entries<Triples<N>>>,
    number: u64,
    line: &[u8],
) -> Result<(), MtxFault>
    requires bits { IsSupported N.BITS }
    requires ready { IsReadyPhase N.BITS phase.old }
    ensures ready { OnOk result (IsReadyPhase N.BITS phase.new) }
    ensures no_read { IfErr result IsNotRead }
    ensures takes { let old = phase.old in
        (ts : _) → HasRead old ts → TakesLine result phase.new
        (with_line N.BITS number (reading_of old ts) (words_of line.now)) }
{
    match phase {
        Phase::Banner => match read_banner(line) {
            Ok(banner) => {
                *phase = Phase::Size(banner);
                Ok(())
            }
            Err(fault) => Err(fault_at(number, fault)),
        },
        Phase::Size(banner) => {
            if is_skipped(line) {
                return Ok(());
            }
            match first_entries(alloc, *banner, line) {
                Ok(entries) => {
                    *phase = Phase::Entries(entries);
                    Ok(())
                }
                Err(fault) => Err(fault_at(number, fault)),
            }
        }
        Phase::Entries(entries) => take_entry(entries, number, line),
    }
}

/// Takes the plain lines that come next, as many as are held, if they are entry lines.
pub(crate) fn take_plain_lines<N: Number, F: Files>(
    alloc: Global,
    phase: &mut Phase<Entries<Triples<N>>>,
    input: &mut Input<'_, F>,
) -> Result<(), MtxFault>
    requires bits { IsSupported N.BITS }
    requires ready { IsReadyPhase N.BITS phase.old }
    ensures ready { OnOk result (IsReadyPhase N.BITS phase.new) }
    ensures no_read { IfErr result IsNotRead }
    ensures same_reference { input.new.files.ghost_name ≡ input.old.files.ghost_name }
    ensures same_files { input.new.files.now ≡ input.old.files.now }
    ensures limit { input.new.taken.limit ≡ input.old.taken.limit }
    ensures later { input.old.taken.lines ≤ input.new.taken.lines }
    ensures reads { let p = input.old.taken in
        let before = ahead_of p (left (F.state input.old.files.now)) in
        let after = ahead_of input.new.taken (left (F.state input.new.files.now)) in
        (whole : _) → LeftDecides N.BITS p.limit p.at (p.lines + 1) phase.old before whole
        → GoesOn N.BITS p.limit input.new.taken.at (input.new.taken.lines + 1) phase.new after whole result }
{
    match phase {
        Phase::Entries(entries) => {
            take_dense(alloc, entries, input);
            take_plain(entries, input)
        }
        _ => Ok(()),
    }
}

// What the size line says: no entries so far.
fn first_entries<N: Number>(
    alloc: Global,
    banner: Banner,
    line: &[u8],
) -> Result<Entries<Triples<N>>, LineFault>
    requires bits { IsSupported N.BITS }
    ensures ready { IfOk result (IsReady N.BITS) }
    ensures none { IfOk result (λ entries. HasTriples entries []) }
    ensures banner { IfOk result (λ entries. entries.banner ≡ banner) }
    ensures size { map_ok size_of result ≡ size_in banner (words_of line.now) }
{
    let size = read_size(banner, line)?;
    Ok(Entries {
        banner,
        size,
        count: 0,
        next: first_cell(banner.symmetry, 0),
        table: Triples::new(alloc, size.rows, size.cols),
    })
}

/// Takes the end of the text, which stands at this line.
#[tactic(auto, unfolding(cla_market::specs::Texts::at_end))]
pub(crate) fn finish<N: Number>(
    number: u64,
    phase: Phase<Entries<Triples<N>>>,
) -> Result<Dense<N>, MtxFault>
    requires bits { IsSupported N.BITS }
    requires ready { IsReadyPhase N.BITS phase }
    ensures no_read { IfErr result IsNotRead }
    ensures ends { (ts : _) → HasRead phase ts → EndsAs result (at_end number (reading_of phase ts)) }
{
    match phase {
        Phase::Banner => Err(MtxFault::Banner { line: number }),
        Phase::Size(_) => Err(MtxFault::Size { line: number }),
        Phase::Entries(entries) => {
            let Entries {
                size,
                count,
                table,
                ..
            } = entries;
            if count < size.entries {
                return Err(MtxFault::TooFew { line: number });
            }
            match table.finish() {
                Ok(m) => Ok(m),
                Err(_) => Err(MtxFault::Memory),
            }
        }
    }
}
