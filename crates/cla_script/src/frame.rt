//! The stack of what is still open in a statement.

ghost use Rattle.std.specs.Prelude.{◌≡◌, IfOk};
ghost use Rattle.cla_grammar.specs.Tokens.{level, cell_level};
ghost use Rattle.cla_grammar.specs.Machine.{closed, reduce, reduced, level_of};
ghost use Rattle.cla_script.specs.View.{tree_of, frame_of, stack_of};

use crate::expr::Expr;
use cla_grammar::{BinOp, Bind, Call, Place, SaveWord};
use cla_num::{CellOp, Name, Number};
use std::alloc::{AllocError, Global};

/// What is still open in a statement: an operator or a bracket that waits for an operand, or the
/// statement itself, which stands at the bottom of the stack.
#[derive(Drop)]
pub enum Frame<N> {
    Left {
        place: Place,
        op: BinOp,
        a: Expr<N>,
    },
    Minus {
        place: Place,
    },
    Paren,
    Argument {
        place: Place,
        call: Call,
    },
    First {
        place: Place,
        bind: Bind,
    },
    Second {
        place: Place,
        bind: Bind,
        a: Expr<N>,
    },
    Letting {
        name: Name,
    },
    Printing,
    Saving {
        word: SaveWord,
        place: Place,
    },
}

fn cell_level(op: CellOp) -> u8
    ensures { result ≡ cell_level op }
{
    match op {
        CellOp::Add | CellOp::Sub => 2,
        CellOp::Mul => 3,
        CellOp::Div | CellOp::Mod | CellOp::Neg => 4,
        CellOp::Lt | CellOp::Le | CellOp::Gt | CellOp::Ge | CellOp::Eq | CellOp::Ne => 1,
    }
}

/// How tightly an operator binds, from 1 for comparisons.
pub fn level(op: BinOp) -> u8
    ensures { result ≡ level op }
{
    match op {
        BinOp::Cell(op) => cell_level(op),
        BinOp::Product => 4,
    }
}

impl<N: Number + Drop> Frame<N> {
    /// The level of what the frame becomes, or 0 where only a sign or the statement's end closes it.
    pub fn level(&self) -> u8
        ensures { result ≡ level_of (frame_of N.value self.now) }
    {
        match self {
            Frame::Left { op, .. } => level(*op),
            Frame::Minus { .. } => 5,
            _ => 0,
        }
    }

    /// The tree of the frame with its last operand.
    pub fn close(self, alloc: Global, b: Expr<N>) -> Result<Expr<N>, AllocError>
        ensures { IfOk result (λ e. tree_of N.value e ≡ closed (frame_of N.value self) (tree_of N.value b)) }
    {
        match self {
            Frame::Left { place, op, a } => Ok(Expr::Binary {
                place,
                op,
                a: Box::new(alloc, a)?,
                b: Box::new(alloc, b)?,
            }),
            Frame::Minus { place } => Ok(Expr::Neg {
                place,
                a: Box::new(alloc, b)?,
            }),
            _ => Ok(b),
        }
    }
}

/// The frames of this level and of higher ones take the tree. Its time grows with their number.
pub fn reduce<N: Number + Drop>(
    alloc: Global,
    frames: &mut Vec<Frame<N>>,
    mut tree: Expr<N>,
    level: u8,
) -> Result<Expr<N>, AllocError>
    ensures { IfOk result (λ e. reduce level (stack_of N.value frames.old.items) (tree_of N.value tree)
        ≡ reduced (stack_of N.value frames.new.items) (tree_of N.value e)) }
{
    'closing: while frames.last().is_some_and(|f| level <= f.level()) {
        if let Some(frame) = frames.pop() {
            tree = frame.close(alloc, tree)?;
        }
    }
    Ok(tree)
}
