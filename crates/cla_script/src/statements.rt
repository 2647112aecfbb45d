//! The beginning of a statement, and the end of an assignment.

ghost use Rattle.std.specs.Prelude.{◌≡◌};
ghost use Rattle.cla_grammar.specs.Machine as machine;
ghost use Rattle.cla_grammar.specs.Machine.{let_end};
ghost use Rattle.cla_grammar.specs.Reader.{test};
ghost use Rattle.cla_tokens.specs.View.{token_of};
ghost use Rattle.cla_script.specs.View.{stack_of, tree_of};
ghost use Rattle.cla_script.specs.Takes.{Joins, Tells};

use crate::builder::{Builder, Phase};
use crate::expr::{Expr, Statement};
use crate::frame::Frame;
use crate::refusal::Refusal;
use cla_grammar::ScriptKind;
use cla_num::{Name, Number};
use cla_tokens::{Token, TokenKind};
use std::alloc::Global;

/// After the first token of a statement.
pub fn start<N: Number + Drop>(alloc: Global, token: Token) -> Result<Builder<N>, Refusal>
    ensures { Tells N.value result (test N.BITS machine.Start (token_of token.entry)) }
{
    let mut frames = Vec::new(alloc);
    match token.kind {
        TokenKind::Name(name) => Ok(Builder::from_parts(
            frames,
            Phase::After(Name::of(alloc, name)?),
        )),
        TokenKind::Print => {
            frames.push(Frame::Printing)?;
            Ok(Builder::from_parts(frames, Phase::WantOpen))
        }
        TokenKind::Save(word) => {
            frames.push(Frame::Saving {
                word,
                place: token.place,
            })?;
            Ok(Builder::from_parts(frames, Phase::WantOpen))
        }
        _ => Err(Refusal::Kind(ScriptKind::Syntax)),
    }
}

/// After a name and the next token.
pub fn assign<N: Number + Drop>(
    alloc: Global,
    name: Name,
    token: Token,
) -> Result<Builder<N>, Refusal>
    ensures { Tells N.value result (test N.BITS (machine.After name) (token_of token.entry)) }
{
    let mut frames = Vec::new(alloc);
    match token.kind {
        TokenKind::Assign => {
            frames.push(Frame::Letting { name })?;
            Ok(Builder::from_parts(frames, Phase::Want))
        }
        _ => Err(Refusal::Kind(ScriptKind::Syntax)),
    }
}

/// The assignment, where all of its expression was read.
pub fn let_end<N: Number + Drop>(
    mut frames: Vec<Frame<N>>,
    value: Expr<N>,
) -> Result<Statement<N>, Refusal>
    ensures { Joins N.value result (let_end (stack_of N.value frames.items) (tree_of N.value value)) }
{
    let Some(frame) = frames.pop() else {
        return Err(Refusal::Kind(ScriptKind::Syntax))
    };
    match frame {
        Frame::Letting { name } => Ok(Statement::Let { name, value }),
        Frame::Left { .. }
        | Frame::Minus { .. }
        | Frame::Paren
        | Frame::Argument { .. }
        | Frame::First { .. }
        | Frame::Second { .. }
        | Frame::Printing
        | Frame::Saving { .. } => Err(Refusal::Kind(ScriptKind::Syntax)),
    }
}
