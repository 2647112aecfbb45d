//! From exact cells to matrices of numbers.

ghost use Rattle.std.specs.Prelude.{◌≡◌, ◌<◌, ◌+◌, ◌*◌, ℕ, [], length, map, MatchResult, IfOk};
ghost use Rattle.cla_spec.specs.Numbers.{InRange};
ghost use Rattle.cla_spec.specs.Matrix.{IsShaped};
ghost use Rattle.cla_num.specs.Bits.{IsSupported};
ghost use Rattle.cla_layout.specs.Groups.{at};
ghost use Rattle.cla_meaning.specs.Answers.{AnswersMatrix};
ghost use Rattle.cla_agg.specs.Lines.{AnswersCells};

use cla_num::{Dense, Memory, Number, OpFault, Refused, What, Wide};

/// The matrix of these exact cells, row by row, or the fault of the first that isn't in range. It fills
/// `numbers`, which is empty.
pub(crate) fn matrix_of<N: Number>(
    rows: u32,
    cols: u32,
    cells: &[Wide],
    numbers: Vec<N>,
) -> Result<Dense<N>, Refused>
    requires bits { IsSupported N.BITS }
    requires shape { IsShaped rows cols cells.now }
    requires none_yet { numbers.items ≡ [] }
    ensures { AnswersMatrix N.BITS rows cols (λ i j. at cells.now (i * cols + j)) result }
{
    let numbers = numbers_of(rows, cols, cells, numbers)?;
    Ok(Dense::new(rows, cols, numbers))
}

// The numbers of these cells, or the fault of the first that isn't in range.
fn numbers_of<N: Number>(
    rows: u32,
    cols: u32,
    cells: &[Wide],
    mut numbers: Vec<N>,
) -> Result<Vec<N>, Refused>
    requires bits { IsSupported N.BITS }
    requires shape { IsShaped rows cols cells.now }
    requires none_yet { numbers.items ≡ [] }
    ensures { MatchResult result (λ ns. AnswersCells N.BITS N.value rows cols cells.now (Ok ns.items))
        (λ e. AnswersCells N.BITS N.value rows cols cells.now (Err e)) }
{
    for (place, exact) in cells.iter().enumerate() {
        match N::narrow(*exact) {
            Some(n) => {
                if numbers.push(n).is_err() {
                    return Err(Refused::Memory);
                }
            }
            None => {
                return Err(Refused::Op(OpFault {
                    op: 0,
                    row: place as u32 / cols + 1,
                    col: place as u32 % cols + 1,
                    what: What::Range { value: *exact },
                }));
            }
        }
    }
    Ok(numbers)
}
