//! Operands and operators.

ghost use Rattle.std.specs.Prelude.{◌≡◌, ◌≤◌, ◌<◌, ◌^◌, pos, MatchOption};
ghost use Rattle.cla_grammar.specs.Machine as machine;
ghost use Rattle.cla_grammar.specs.Machine.{close, next_argument};
ghost use Rattle.cla_grammar.specs.Reader.{test};
ghost use Rattle.cla_num.specs.Bits.{IsSupported};
ghost use Rattle.cla_tokens.specs.Values.{value};
ghost use Rattle.cla_tokens.specs.View.{token_of};
ghost use Rattle.cla_script.specs.View.{stack_of, tree_of};
ghost use Rattle.cla_script.specs.Takes.{settled, Tells};

use crate::builder::{Builder, Part, Phase, Seen};
use crate::expr::{Expr, Statement};
use crate::files::read;
use crate::frame::{Frame, level, reduce};
use crate::refusal::Refusal;
use cla_grammar::{BinOp, Place, ScriptKind};
use cla_num::{CellOp, Name, Number};
use cla_tokens::{Token, TokenKind, digits_value};
use std::alloc::Global;

// The number of these digits as an expression, where it is below its limit.
fn constant<N: Number>(digits: &[u8]) -> Option<N>
    requires { IsSupported N.BITS }
    ensures { MatchOption result (2 ^ N.BITS ≤ value digits.now)
        (λ n. (N.value n ≡ pos (value digits.now)) × (value digits.now < 2 ^ N.BITS)) }
{
    let Some(size) = digits_value(digits) else {
        return None
    };
    N::of(size as i64)
}

/// After the first token of an operand.
pub fn want<N: Number + Drop>(
    alloc: Global,
    mut frames: Vec<Frame<N>>,
    token: Token,
) -> Result<Builder<N>, Refusal>
    requires { IsSupported N.BITS }
    ensures { Tells N.value result (test N.BITS (machine.Want (stack_of N.value frames.items)) (token_of token.entry)) }
{
    let place = token.place;
    match token.kind {
        TokenKind::Number(digits) => {
            let Some(value) = constant(digits) else {
                return Err(Refusal::Kind(ScriptKind::Literal))
            };
            Ok(Builder::from_parts(frames, Phase::Have(true, Expr::Number { value })))
        }
        TokenKind::Name(name) => {
            let name = Name::of(alloc, name)?;
            Ok(Builder::from_parts(frames, Phase::Have(true, Expr::Named { place, name })))
        }
        TokenKind::Sign(BinOp::Cell(CellOp::Sub)) => {
            frames.push(Frame::Minus { place })?;
            Ok(Builder::from_parts(frames, Phase::Want))
        }
        TokenKind::Open => {
            frames.push(Frame::Paren)?;
            Ok(Builder::from_parts(frames, Phase::Want))
        }
        TokenKind::Function(call) => {
            frames.push(Frame::Argument { place, call })?;
            Ok(Builder::from_parts(frames, Phase::WantOpen))
        }
        TokenKind::Binder(bind) => {
            frames.push(Frame::First { place, bind })?;
            Ok(Builder::from_parts(frames, Phase::WantOpen))
        }
        TokenKind::Read => read(frames),
        _ => Err(Refusal::Kind(ScriptKind::Syntax)),
    }
}

/// After a function's word, or that of a statement, and the next token.
pub fn want_open<N: Number + Drop>(
    frames: Vec<Frame<N>>,
    token: Token,
) -> Result<Builder<N>, Refusal>
    ensures { Tells N.value result
        (test N.BITS (machine.WantOpen (stack_of N.value frames.items)) (token_of token.entry)) }
{
    match token.kind {
        TokenKind::Open => Ok(Builder::from_parts(frames, Phase::Want)),
        _ => Err(Refusal::Kind(ScriptKind::Syntax)),
    }
}

// After `)`, where all operators before it are done.
fn close<N: Number + Drop>(
    alloc: Global,
    mut frames: Vec<Frame<N>>,
    tree: Expr<N>,
) -> Result<Builder<N>, Refusal>
    ensures { Tells N.value result (settled (close (stack_of N.value frames.items) (tree_of N.value tree))) }
{
    let Some(frame) = frames.pop() else {
        return Err(Refusal::Kind(ScriptKind::Syntax))
    };
    match frame {
        Frame::Paren => Ok(Builder::from_parts(frames, Phase::Have(true, tree))),
        Frame::Argument { place, call } => {
            let a = Box::new(alloc, tree)?;
            Ok(Builder::from_parts(frames, Phase::Have(true, Expr::Call { place, call, a })))
        }
        Frame::Second { place, bind, a } => {
            let (a, b) = (Box::new(alloc, a)?, Box::new(alloc, tree)?);
            Ok(Builder::from_parts(frames, Phase::Have(true, Expr::Bind { place, bind, a, b })))
        }
        Frame::Printing => Ok(Builder::from_parts(
            frames,
            Phase::Whole(Statement::Print { value: tree }),
        )),
        Frame::Left { .. }
        | Frame::Minus { .. }
        | Frame::First { .. }
        | Frame::Letting { .. }
        | Frame::Saving { .. } => Err(Refusal::Kind(ScriptKind::Syntax)),
    }
}

// After a comma, where all operators before it are done.
fn next_argument<N: Number + Drop>(
    mut frames: Vec<Frame<N>>,
    tree: Expr<N>,
) -> Result<Builder<N>, Refusal>
    ensures { Tells N.value result (settled (next_argument (stack_of N.value frames.items) (tree_of N.value tree))) }
{
    let Some(frame) = frames.pop() else {
        return Err(Refusal::Kind(ScriptKind::Syntax))
    };
    match frame {
        Frame::First { place, bind } => {
            frames.push(Frame::Second {
                place,
                bind,
                a: tree,
            })?;
            Ok(Builder::from_parts(frames, Phase::Want))
        }
        Frame::Saving { word, place } => Ok(Builder::from_parts(
            frames,
            Phase::FileText(word, place, tree),
        )),
        Frame::Left { .. }
        | Frame::Minus { .. }
        | Frame::Paren
        | Frame::Argument { .. }
        | Frame::Second { .. }
        | Frame::Letting { .. }
        | Frame::Printing => Err(Refusal::Kind(ScriptKind::Syntax)),
    }
}

/// After an operand and the next token.
pub fn have<N: Number + Drop>(
    alloc: Global,
    mut frames: Vec<Frame<N>>,
    sliceable: bool,
    tree: Expr<N>,
    token: Token,
) -> Result<Builder<N>, Refusal>
    ensures { Tells N.value result
        (test N.BITS (machine.Have sliceable (stack_of N.value frames.items) (tree_of N.value tree))
        (token_of token.entry)) }
{
    let place = token.place;
    match token.kind {
        TokenKind::Sign(op) => {
            let a = reduce(alloc, &mut frames, tree, level(op))?;
            frames.push(Frame::Left { place, op, a })?;
            Ok(Builder::from_parts(frames, Phase::Want))
        }
        TokenKind::Power => Ok(Builder::from_parts(frames, Phase::WantTwo(place, tree))),
        TokenKind::Close => {
            let tree = reduce(alloc, &mut frames, tree, 1)?;
            close(alloc, frames, tree)
        }
        TokenKind::Comma => {
            let tree = reduce(alloc, &mut frames, tree, 1)?;
            next_argument(frames, tree)
        }
        TokenKind::OpenSquare => {
            if sliceable {
                Ok(Builder::from_parts(
                    frames,
                    Phase::InSpan(place, tree, Part::Rows, Seen::Nothing),
                ))
            } else {
                Err(Refusal::Kind(ScriptKind::Syntax))
            }
        }
        _ => Err(Refusal::Kind(ScriptKind::Syntax)),
    }
}

/// After `^` at this place, and the next token.
pub fn two<N: Number + Drop>(
    alloc: Global,
    frames: Vec<Frame<N>>,
    at: Place,
    tree: Expr<N>,
    token: Token,
) -> Result<Builder<N>, Refusal>
    ensures { Tells N.value result
        (test N.BITS (machine.WantTwo at (stack_of N.value frames.items) (tree_of N.value tree))
        (token_of token.entry)) }
{
    match token.kind {
        TokenKind::Number(digits) => {
            if digits_value(digits) == Some(2) {
                let a = Box::new(alloc, tree)?;
                Ok(Builder::from_parts(frames, Phase::Have(false, Expr::Square { place: at, a })))
            } else {
                Err(Refusal::Kind(ScriptKind::Exponent))
            }
        }
        _ => Err(Refusal::Kind(ScriptKind::Exponent)),
    }
}
