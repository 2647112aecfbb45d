//! Groups with lists of offsets.

ghost use Rattle.std.specs.Prelude.{◌≡◌, ◌≤◌, ◌<◌, ◌-◌, ◌*◌, ℕ, false, length};
ghost use Rattle.cla_layout.specs.Listed.{is_rest, rest_of};
ghost use Rattle.cla_offsets.specs.Segments.{segment_rows};
ghost use Rattle.cla_offsets.specs.Members.{offsets_codes, offsets_dictionary, offsets_rest};
ghost use Rattle.cla_packed.specs.Lists.{rows_from};
ghost use Rattle.cla_packed.specs.Offsets.{offsets_bytes, segments};
ghost use Rattle.cla_packed.specs.Rests as rests;
ghost use Rattle.cla_pack_writer.specs.Listed.{body_with, lists_from, counted_offsets};
ghost use Rattle.cla_pack_writer.specs.Outgoing.{Sent};

use crate::lists::put_head;
use crate::numbers::put_number;
use crate::outgoing::Outgoing;
use cla_group::Group;
use cla_io::Sink;
use cla_num::Number;
use cla_offsets::{Offsets, SEGMENT_ROWS};

/// Puts the tuples but the rest, and the list of each of them, segment after segment.
pub(crate) fn put_offsets<N: Number, O: Sink>(g: &Offsets<N>, outgoing: &mut Outgoing, out: &mut O)
    requires rest { offsets_rest g.now ≡ rest_of (offsets_codes g.now) (offsets_dictionary g.now) }
    ensures { let codes = offsets_codes g.now in
        let body = body_with codes (offsets_dictionary g.now) in
        let bytes = rests.listed_bytes (offsets_bytes 32768 (length codes)) 8 body in
        Sent O.told O.faults O.steady O.kept bytes outgoing.old out.old outgoing.new out.new }
{
    let rest = g.rest();
    let tuples = g.tuples();
    put_head(g, rest, outgoing, out);
    match rest {
        None => put_lists(g, 0, tuples, outgoing, out),
        Some(rest) => {
            put_lists(g, 0, rest, outgoing, out);
            put_lists(g, rest + 1, tuples, outgoing, out);
        }
    }
}

// Puts the lists of the codes from code a to before code b.
fn put_lists<N: Number, O: Sink>(
    g: &Offsets<N>,
    a: u32,
    b: u32,
    outgoing: &mut Outgoing,
    out: &mut O,
)
    requires order { a ≤ b }
    requires within { b ≤ length (offsets_dictionary g.now) }
    requires listed { (k : ℕ) → a ≤ k → k < b → is_rest (offsets_rest g.now) k ≡ false }
    ensures { let codes = offsets_codes g.now in
        let bytes = lists_from (offsets_bytes 32768 (length codes)) codes a (b - a) in
        Sent O.told O.faults O.steady O.kept bytes outgoing.old out.old outgoing.new out.new }
{
    for k in a..b {
        put_list(g, k, outgoing, out);
    }
}

// Puts the list of code k, segment after segment.
fn put_list<N: Number, O: Sink>(g: &Offsets<N>, k: u32, outgoing: &mut Outgoing, out: &mut O)
    requires tuple { k < length (offsets_dictionary g.now) }
    requires listed { is_rest (offsets_rest g.now) k ≡ false }
    ensures { let codes = offsets_codes g.now in
        let bytes = offsets_bytes 32768 (length codes) (rows_from 0 codes k) in
        Sent O.told O.faults O.steady O.kept bytes outgoing.old out.old outgoing.new out.new }
{
    for s in 0..segment_count(g.rows()) {
        put_segment(g.list(k, s), outgoing, out);
    }
}

// Puts how many rows of a segment are listed, and each of them, counted from the segment's first row.
fn put_segment<O: Sink>(offsets: &[u16], outgoing: &mut Outgoing, out: &mut O)
    requires { length offsets.now ≤ segment_rows }
    ensures { let bytes = counted_offsets offsets.now in
        Sent O.told O.faults O.steady O.kept bytes outgoing.old out.old outgoing.new out.new }
{
    put_number(offsets.len() as u32, 2, outgoing, out);
    for offset in offsets {
        put_number(u32::from(*offset), 2, outgoing, out);
    }
}

// How many segments so many rows have.
fn segment_count(rows: u32) -> u32
    ensures { result ≡ segments 32768 rows }
{
    rows.div_ceil(SEGMENT_ROWS)
}
