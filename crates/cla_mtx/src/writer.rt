//! The writer.

ghost use Rattle.std.specs.Prelude.{◌≡◌, ◌≤◌, ◌<◌, ◌++◌, ◌∷◌, ◌+◌, ◌^◌, [], pos, length};
ghost use Rattle.cla_spec.specs.Numbers.{decimal_of};
ghost use Rattle.cla_io.specs.Counts.{HasCause};
ghost use Rattle.cla_io.specs.Sinks.{PutsAll, HasWriteCause};
ghost use Rattle.cla_market.specs.Texts.{matrix_market_text, number_line, nonzeros, is_zero_value};
ghost use Rattle.cla_print.specs.Parting.{Parts};
ghost use Rattle.cla_print.specs.Pieces.{pieces};
ghost use Rattle.cla_mtx.specs.Texts.{column_text, cell_text, count_in_column};

use cla_io::{OutFault, Sink, Stop};
use cla_num::{Dense, Number, Wide};
use cla_print::Buffer;
use std::alloc::Global;

/// Writes a matrix as a coordinate file of integers: the banner
/// `%%MatrixMarket matrix coordinate integer general`, the size line, and a line for each entry that
/// isn't 0, column by column and in each from row 1. After an error a prefix of the text is appended.
///
/// It takes the memory of one [`Buffer`], through which all lines go to the sink.
pub fn write_mtx<N: Number, O: Sink>(
    alloc: Global,
    m: &Dense<N>,
    out: &mut O,
) -> Result<(), OutFault>
    ensures puts { PutsAll (matrix_market_text m.now) (O.told out.old) (O.told out.new) result }
    ensures later { O.faults out.old ≤ O.faults out.new }
    ensures steady { O.steady out.new ≡ O.steady out.old }
    ensures kept { O.kept out.old out.new }
    ensures cause { HasWriteCause (O.faults out.old) (O.faults out.new) result }
{
    match put_text(alloc, m, out) {
        Ok(()) => Ok(()),
        Err(Stop::Failed) => Err(OutFault::Write),
        Err(Stop::Memory) => Err(OutFault::Memory),
    }
}

fn put_text<N: Number, O: Sink>(alloc: Global, m: &Dense<N>, out: &mut O) -> Result<(), Stop>
    ensures puts { PutsAll (matrix_market_text m.now) (O.told out.old) (O.told out.new) result }
    ensures later { O.faults out.old ≤ O.faults out.new }
    ensures steady { O.steady out.new ≡ O.steady out.old }
    ensures kept { O.kept out.old out.new }
    ensures cause { HasCause (O.faults out.old) (O.faults out.new) result }
{
    let mut buffer = Buffer::new(alloc)?;
    put_lines(m, &mut buffer, out)?;
    buffer.flush(out)
}

fn put_lines<N: Number, O: Sink>(m: &Dense<N>, buffer: &mut Buffer, out: &mut O) -> Result<(), Stop>
    ensures parts { Parts (buffer.old ++ matrix_market_text m.now) (O.told out.old) (O.told out.new) buffer.new result }
    ensures later { O.faults out.old ≤ O.faults out.new }
    ensures steady { O.steady out.new ≡ O.steady out.old }
    ensures kept { O.kept out.old out.new }
    ensures cause { HasCause (O.faults out.old) (O.faults out.new) result }
{
    buffer.push(out, b"%%MatrixMarket matrix coordinate integer general\n")?;
    let (rows, cols) = (Wide::count(m.rows()), Wide::count(m.cols()));
    put_numbers(rows, cols, count_nonzeros(m), buffer, out)?;
    put_columns(m, buffer, out)
}

// Puts the entries' lines, column by column.
fn put_columns<N: Number, O: Sink>(
    m: &Dense<N>,
    buffer: &mut Buffer,
    out: &mut O,
) -> Result<(), Stop>
    ensures parts { let text = pieces (column_text m.now) m.now.cols in
        Parts (buffer.old ++ text) (O.told out.old) (O.told out.new) buffer.new result }
    ensures later { O.faults out.old ≤ O.faults out.new }
    ensures steady { O.steady out.new ≡ O.steady out.old }
    ensures kept { O.kept out.old out.new }
    ensures cause { HasCause (O.faults out.old) (O.faults out.new) result }
{
    for j in 0..m.cols() {
        put_column(m, j, buffer, out)?;
    }
    Ok(())
}

fn put_column<N: Number, O: Sink>(
    m: &Dense<N>,
    j: u32,
    buffer: &mut Buffer,
    out: &mut O,
) -> Result<(), Stop>
    requires col { j < m.now.cols }
    requires small { j + 1 < 2 ^ 32 }
    ensures parts { Parts (buffer.old ++ column_text m.now j) (O.told out.old) (O.told out.new) buffer.new result }
    ensures later { O.faults out.old ≤ O.faults out.new }
    ensures steady { O.steady out.new ≡ O.steady out.old }
    ensures kept { O.kept out.old out.new }
    ensures cause { HasCause (O.faults out.old) (O.faults out.new) result }
{
    for i in 0..m.rows() {
        put_cell(m, i, j, buffer, out)?;
    }
    Ok(())
}

// Puts the line of an entry, if it isn't 0.
fn put_cell<N: Number, O: Sink>(
    m: &Dense<N>,
    i: u32,
    j: u32,
    buffer: &mut Buffer,
    out: &mut O,
) -> Result<(), Stop>
    requires row { i < m.now.rows }
    requires col { j < m.now.cols }
    requires small_row { i + 1 < 2 ^ 32 }
    requires small_col { j + 1 < 2 ^ 32 }
    ensures parts { Parts (buffer.old ++ cell_text m.now j i) (O.told out.old) (O.told out.new) buffer.new result }
    ensures later { O.faults out.old ≤ O.faults out.new }
    ensures steady { O.steady out.new ≡ O.steady out.old }
    ensures kept { O.kept out.old out.new }
    ensures cause { HasCause (O.faults out.old) (O.faults out.new) result }
{
    let value = m.entry(i, j);
    if is_zero(value) {
        return Ok(());
    }
    put_numbers(
        Wide::count(i + 1),
        Wide::count(j + 1),
        value.wide(),
        buffer,
        out,
    )
}

// Puts a line of three numbers.
fn put_numbers<O: Sink>(
    first: Wide,
    second: Wide,
    third: Wide,
    buffer: &mut Buffer,
    out: &mut O,
) -> Result<(), Stop>
    ensures parts { let line = number_line first second third in
        Parts (buffer.old ++ (line ++ 10 ∷ [])) (O.told out.old) (O.told out.new) buffer.new result }
    ensures later { O.faults out.old ≤ O.faults out.new }
    ensures steady { O.steady out.new ≡ O.steady out.old }
    ensures kept { O.kept out.old out.new }
    ensures cause { HasCause (O.faults out.old) (O.faults out.new) result }
{
    put_number(first, b' ', buffer, out)?;
    put_number(second, b' ', buffer, out)?;
    put_number(third, b'\n', buffer, out)
}

// Puts a number's decimal text and the byte behind it.
fn put_number<O: Sink>(n: Wide, end: u8, buffer: &mut Buffer, out: &mut O) -> Result<(), Stop>
    ensures parts { let word = decimal_of n ++ end ∷ [] in
        Parts (buffer.old ++ word) (O.told out.old) (O.told out.new) buffer.new result }
    ensures later { O.faults out.old ≤ O.faults out.new }
    ensures steady { O.steady out.new ≡ O.steady out.old }
    ensures kept { O.kept out.old out.new }
    ensures cause { HasCause (O.faults out.old) (O.faults out.new) result }
{
    let mut digits = [0u8; 40];
    let len = n.put(&mut digits);
    buffer.push(out, &digits[..len])?;
    buffer.push(out, &[end])
}

// How many entries aren't 0.
fn count_nonzeros<N: Number>(m: &Dense<N>) -> Wide
    ensures { result ≡ pos (length (nonzeros m.now)) }
{
    let mut count = Wide::zero();
    for j in 0..m.cols() {
        count = count.plus(Wide::count(count_in_column(m, j)));
    }
    count
}

fn count_in_column<N: Number>(m: &Dense<N>, j: u32) -> u32
    requires { j < m.now.cols }
    ensures { result ≡ count_in_column m.now j m.now.rows }
{
    let mut count = 0;
    for i in 0..m.rows() {
        if !is_zero(m.entry(i, j)) {
            count += 1;
        }
    }
    count
}

fn is_zero<N: Number>(v: N) -> bool
    ensures { result ≡ is_zero_value (N.value v) }
{
    v.wide() == Wide::zero()
}
