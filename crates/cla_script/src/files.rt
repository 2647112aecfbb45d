//! The files of `read`, `write` and `pack`.

ghost use Rattle.std.specs.Prelude.{◌≡◌};
ghost use Rattle.cla_grammar.specs.Machine as machine;
ghost use Rattle.cla_grammar.specs.Machine.{read};
ghost use Rattle.cla_grammar.specs.Reader.{test};
ghost use Rattle.cla_grammar.specs.Tree.{SaveOf};
ghost use Rattle.cla_tokens.specs.View.{token_of};
ghost use Rattle.cla_script.specs.View.{stack_of, statement_of, tree_of};
ghost use Rattle.cla_script.specs.Takes.{settled, Tells};

use crate::builder::{Builder, Phase};
use crate::expr::{Expr, Statement};
use crate::frame::Frame;
use crate::refusal::Refusal;
use cla_grammar::{Place, SaveWord, ScriptKind};
use cla_num::{Name, Number};
use cla_tokens::{Token, TokenKind};
use std::alloc::Global;

/// After the word `read`, which stands right after `=` alone.
pub fn read<N: Number + Drop>(mut frames: Vec<Frame<N>>) -> Result<Builder<N>, Refusal>
    ensures { Tells N.value result (settled (read (stack_of N.value frames.items))) }
{
    let Some(frame) = frames.pop() else {
        return Err(Refusal::Kind(ScriptKind::Syntax))
    };
    match frame {
        Frame::Letting { name } => Ok(Builder::from_parts(frames, Phase::ReadOpen(name))),
        Frame::Left { .. }
        | Frame::Minus { .. }
        | Frame::Paren
        | Frame::Argument { .. }
        | Frame::First { .. }
        | Frame::Second { .. }
        | Frame::Printing
        | Frame::Saving { .. } => Err(Refusal::Kind(ScriptKind::Syntax)),
    }
}

/// After `read` and the next token.
pub fn read_open<N: Number + Drop>(
    frames: Vec<Frame<N>>,
    name: Name,
    token: Token,
) -> Result<Builder<N>, Refusal>
    ensures { Tells N.value result (test N.BITS (machine.ReadOpen name) (token_of token.entry)) }
{
    match token.kind {
        TokenKind::Open => Ok(Builder::from_parts(frames, Phase::ReadText(name))),
        _ => Err(Refusal::Kind(ScriptKind::Syntax)),
    }
}

/// After `read(` and the next token.
pub fn read_text<N: Number + Drop>(
    alloc: Global,
    frames: Vec<Frame<N>>,
    name: Name,
    token: Token,
) -> Result<Builder<N>, Refusal>
    ensures { Tells N.value result (test N.BITS (machine.ReadText name) (token_of token.entry)) }
{
    match token.kind {
        TokenKind::Text(file) => Ok(Builder::from_parts(
            frames,
            Phase::ReadClose(name, Name::of(alloc, file)?),
        )),
        _ => Err(Refusal::Kind(ScriptKind::Syntax)),
    }
}

/// After the file that is read, and the next token.
pub fn read_close<N: Number + Drop>(
    frames: Vec<Frame<N>>,
    name: Name,
    file: Name,
    token: Token,
) -> Result<Builder<N>, Refusal>
    ensures { Tells N.value result (test N.BITS (machine.ReadClose name file) (token_of token.entry)) }
{
    match token.kind {
        TokenKind::Close => Ok(Builder::from_parts(
            frames,
            Phase::Whole(Statement::Read { name, file }),
        )),
        _ => Err(Refusal::Kind(ScriptKind::Syntax)),
    }
}

/// After the comma of `write` or `pack`, and the next token.
pub fn file_text<N: Number + Drop>(
    alloc: Global,
    frames: Vec<Frame<N>>,
    word: SaveWord,
    place: Place,
    tree: Expr<N>,
    token: Token,
) -> Result<Builder<N>, Refusal>
    ensures { Tells N.value result
        (test N.BITS (machine.FileText word place (tree_of N.value tree)) (token_of token.entry)) }
{
    match token.kind {
        TokenKind::Text(file) => {
            let file = Name::of(alloc, file)?;
            Ok(Builder::from_parts(
                frames,
                Phase::FileClose(word, place, tree, token.place, file),
            ))
        }
        _ => Err(Refusal::Kind(ScriptKind::Syntax)),
    }
}

/// After the file that is written, and the next token.
pub fn file_close<N: Number + Drop>(
    frames: Vec<Frame<N>>,
    word: SaveWord,
    place: Place,
    tree: Expr<N>,
    file_place: Place,
    file: Name,
    token: Token,
) -> Result<Builder<N>, Refusal>
    ensures { Tells N.value result
        (test N.BITS (machine.FileClose word place (tree_of N.value tree) file_place file) (token_of token.entry)) }
{
    match token.kind {
        TokenKind::Close => {
            let statement = save_statement(word, place, tree, file_place, file);
            Ok(Builder::from_parts(frames, Phase::Whole(statement)))
        }
        _ => Err(Refusal::Kind(ScriptKind::Syntax)),
    }
}

fn save_statement<N: Number + Drop>(
    word: SaveWord,
    place: Place,
    value: Expr<N>,
    file_place: Place,
    file: Name,
) -> Statement<N>
    ensures { statement_of N.value result ≡ SaveOf word place (tree_of N.value value) file_place file }
{
    match word {
        SaveWord::Write => Statement::Write {
            value,
            place,
            file,
            file_place,
        },
        SaveWord::Pack => Statement::Pack {
            value,
            place,
            file,
            file_place,
        },
    }
}
