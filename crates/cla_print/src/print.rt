//! Printing numbers and matrices.

ghost use Rattle.std.specs.Prelude.{◌≡◌, ◌≤◌, ◌<◌, ◌++◌, ◌∷◌, [], length, take};
ghost use Rattle.cla_spec.specs.Numbers.{decimal_of};
ghost use Rattle.cla_io.specs.Counts.{HasCause};
ghost use Rattle.cla_io.specs.Sinks.{PutsAll};
ghost use Rattle.cla_layout.specs.Groups.{cell_of, value_of};
ghost use Rattle.cla_print.specs.Texts.{number_line, row_text, rows_text};
ghost use Rattle.cla_print.specs.Pieces.{entry_end};
ghost use Rattle.cla_print.specs.Parting.{Parts};

use crate::buffer::Buffer;
use cla_group::Group;
use cla_io::{Sink, Stop, put_all};
use cla_num::Number;
use std::alloc::Global;

/// Prints a number: its decimal text on a line of its own. After an error a prefix of the line is
/// appended. It takes no memory.
pub fn print_number<N: Number, O: Sink>(n: N, out: &mut O) -> Result<(), Stop>
    ensures puts { PutsAll (number_line (N.value n)) (O.told out.old) (O.told out.new) result }
    ensures later { O.faults out.old ≤ O.faults out.new }
    ensures steady { O.steady out.new ≡ O.steady out.old }
    ensures kept { O.kept out.old out.new }
    ensures cause { HasCause (O.faults out.old) (O.faults out.new) result }
{
    let mut line = [0u8; 41];
    let len = put_ended(n, b'\n', &mut line);
    put_all(out, &line[..len])
}

/// Prints the rows of a group: a line for each, with the decimal texts of its entries, parted by one
/// blank. After an error a prefix of the text is appended.
///
/// It takes the memory of one [`Buffer`], through which all entries go to the sink.
pub fn print_rows<N: Number, G: Group<N>, O: Sink>(
    alloc: Global,
    g: &G,
    out: &mut O,
) -> Result<(), Stop>
    ensures puts { let cells = cell_of (G.codes g.now) (G.dictionary g.now) in
        PutsAll (rows_text (length (G.codes g.now)) (G.columns g.now) cells) (O.told out.old) (O.told out.new) result }
    ensures later { O.faults out.old ≤ O.faults out.new }
    ensures steady { O.steady out.new ≡ O.steady out.old }
    ensures kept { O.kept out.old out.new }
    ensures cause { HasCause (O.faults out.old) (O.faults out.new) result }
{
    let mut buffer = Buffer::new(alloc)?;
    put_rows(g, &mut buffer, out)?;
    buffer.flush(out)
}

// Puts the lines of all rows.
fn put_rows<N: Number, G: Group<N>, O: Sink>(
    g: &G,
    buffer: &mut Buffer,
    out: &mut O,
) -> Result<(), Stop>
    ensures parts { let cells = cell_of (G.codes g.now) (G.dictionary g.now) in
        Parts (buffer.old ++ rows_text (length (G.codes g.now)) (G.columns g.now) cells)
        (O.told out.old) (O.told out.new) buffer.new result }
    ensures later { O.faults out.old ≤ O.faults out.new }
    ensures steady { O.steady out.new ≡ O.steady out.old }
    ensures kept { O.kept out.old out.new }
    ensures cause { HasCause (O.faults out.old) (O.faults out.new) result }
{
    for i in 0..g.rows() {
        put_row(g, g.code_at(i), buffer, out)?;
    }
    Ok(())
}

// Puts the line of a row with this code.
fn put_row<N: Number, G: Group<N>, O: Sink>(
    g: &G,
    k: u32,
    buffer: &mut Buffer,
    out: &mut O,
) -> Result<(), Stop>
    requires { k < length (G.dictionary g.now) }
    ensures parts { Parts (buffer.old ++ row_text (G.columns g.now) (value_of (G.dictionary g.now) k))
        (O.told out.old) (O.told out.new) buffer.new result }
    ensures later { O.faults out.old ≤ O.faults out.new }
    ensures steady { O.steady out.new ≡ O.steady out.old }
    ensures kept { O.kept out.old out.new }
    ensures cause { HasCause (O.faults out.old) (O.faults out.new) result }
{
    let cols = g.width();
    for c in 0..cols {
        put_entry(g.value(k, c), entry_end(c, cols), buffer, out)?;
    }
    Ok(())
}

// What ends the entry of column c: a blank, or LF in the last column.
fn entry_end(c: u32, cols: u32) -> u8
    requires { c < cols }
    ensures { result ≡ entry_end cols c }
{
    if c + 1 < cols { b' ' } else { b'\n' }
}

// Puts an entry and what ends it.
fn put_entry<N: Number, O: Sink>(
    n: N,
    end: u8,
    buffer: &mut Buffer,
    out: &mut O,
) -> Result<(), Stop>
    ensures parts { Parts (buffer.old ++ (decimal_of (N.value n) ++ end ∷ []))
        (O.told out.old) (O.told out.new) buffer.new result }
    ensures later { O.faults out.old ≤ O.faults out.new }
    ensures steady { O.steady out.new ≡ O.steady out.old }
    ensures kept { O.kept out.old out.new }
    ensures cause { HasCause (O.faults out.old) (O.faults out.new) result }
{
    let mut piece = [0u8; 41];
    let len = put_ended(n, end, &mut piece);
    buffer.push(out, &piece[..len])
}

// Puts a number's decimal text and what ends it into the first bytes of `piece`, and gives their number.
fn put_ended<N: Number>(n: N, end: u8, piece: &mut [u8; 41]) -> usize
    ensures text { take result piece.new ≡ decimal_of (N.value n) ++ end ∷ [] }
    ensures within { result ≤ 41 }
{
    let mut digits = [0u8; 40];
    let len = n.put(&mut digits);
    piece[..len].copy_from_slice(&digits[..len]);
    piece[len] = end;
    len + 1
}
