//! A statement is read from left to right, a token a call, with what is still open on a stack.

ghost use Rattle.std.specs.Prelude.{◌≡◌};
ghost use Rattle.cla_grammar.specs.Machine as machine;
ghost use Rattle.cla_grammar.specs.Machine.{finish};
ghost use Rattle.cla_grammar.specs.Reader.{test, waits};
ghost use Rattle.cla_num.specs.Bits.{IsSupported};
ghost use Rattle.cla_tokens.specs.View.{token_of};
ghost use Rattle.cla_script.specs.Takes.{Joins, phase_of, state_of, Tells};

use crate::expr::{Expr, Span, Statement};
use crate::expressions::{have, two, want, want_open};
use crate::files::{file_close, file_text, read_close, read_open, read_text};
use crate::frame::{Frame, reduce};
use crate::refusal::Refusal;
use crate::spans::in_span;
use crate::statements::{assign, let_end, start};
use cla_grammar::{Place, SaveWord, ScriptKind};
use cla_num::{Name, Number};
use cla_tokens::Token;
use std::alloc::Global;

/// What was seen of a span.
#[derive(Clone, Copy, Drop)]
pub enum Seen {
    Nothing,
    /// A number.
    Once(u32),
    /// A number and `:`.
    Parted(u32),
    /// Two numbers with `:` between them.
    Both(u32, u32),
}

/// Which span is read: that of the rows, or that of the columns after these rows.
#[derive(Clone, Copy, Drop)]
pub enum Part {
    Rows,
    Cols(Span),
}

/// What the next token has to be.
#[derive(Drop)]
pub enum Phase<N> {
    /// The first token of a statement.
    Start,
    /// `=` after this name.
    After(Name),
    /// The beginning of an operand.
    Want,
    /// `(` and then an operand.
    WantOpen,
    /// What follows this operand, which may be sliced or not.
    Have(bool, Expr<N>),
    /// What follows within the brackets of a slice at this place.
    InSpan(Place, Expr<N>, Part, Seen),
    /// The exponent of `^` at this place.
    WantTwo(Place, Expr<N>),
    /// `(` after `read`.
    ReadOpen(Name),
    /// The file after `read(`.
    ReadText(Name),
    /// `)` after the file that is read.
    ReadClose(Name, Name),
    /// The file after `,` of `write` or `pack`.
    FileText(SaveWord, Place, Expr<N>),
    /// `)` after the file that is written.
    FileClose(SaveWord, Place, Expr<N>, Place, Name),
    /// The statement's end.
    Whole(Statement<N>),
}

/// The open statement: the frames that are still open, the last one on top, and what comes next.
#[derive(Drop)]
pub struct Builder<N> {
    pub frames: Vec<Frame<N>>,
    pub phase: Phase<N>,
}

impl<N: Number + Drop> Builder<N> {
    /// These frames are open, and this comes next.
    pub fn from_parts(frames: Vec<Frame<N>>, phase: Phase<N>) -> Builder<N>
        ensures { state_of N.value result ≡ phase_of N.value frames.items phase }
    {
        Builder { frames, phase }
    }

    /// No token yet. It takes no memory.
    pub fn new(alloc: Global) -> Builder<N>
        ensures { state_of N.value result ≡ machine.Start }
    {
        Builder::from_parts(Vec::new(alloc), Phase::Start)
    }

    /// Whether the last token is `^`.
    pub fn waits(&self) -> bool
        ensures { result ≡ waits (state_of N.value self.now) }
    {
        matches!(self.phase, Phase::WantTwo(_, _))
    }

    /// The next token of the statement.
    pub fn take(self, alloc: Global, token: Token) -> Result<Builder<N>, Refusal>
        requires { IsSupported N.BITS }
        ensures { Tells N.value result (test N.BITS (state_of N.value self) (token_of token.entry)) }
    {
        let Builder { frames, phase } = self;
        match phase {
            Phase::Start => start(alloc, token),
            Phase::After(name) => assign(alloc, name, token),
            Phase::Want => want(alloc, frames, token),
            Phase::WantOpen => want_open(frames, token),
            Phase::Have(sliceable, tree) => have(alloc, frames, sliceable, tree, token),
            Phase::InSpan(at, tree, part, seen) => in_span(
                alloc, frames, at, tree, part, seen, token,
            ),
            Phase::WantTwo(at, tree) => two(alloc, frames, at, tree, token),
            Phase::ReadOpen(name) => read_open(frames, name, token),
            Phase::ReadText(name) => read_text(alloc, frames, name, token),
            Phase::ReadClose(name, file) => read_close(frames, name, file, token),
            Phase::FileText(word, place, tree) => file_text(
                alloc, frames, word, place, tree, token,
            ),
            Phase::FileClose(word, place, tree, file_place, file) => {
                file_close(frames, word, place, tree, file_place, file, token)
            }
            Phase::Whole(_) => Err(Refusal::Kind(ScriptKind::Syntax)),
        }
    }

    /// The statement, at the end of its tokens.
    pub fn finish(self, alloc: Global) -> Result<Statement<N>, Refusal>
        ensures { Joins N.value result (finish (state_of N.value self)) }
    {
        let Builder { mut frames, phase } = self;
        match phase {
            Phase::Have(_, tree) => {
                let value = reduce(alloc, &mut frames, tree, 1)?;
                let_end(frames, value)
            }
            Phase::Whole(statement) => Ok(statement),
            _ => Err(Refusal::Kind(ScriptKind::Syntax)),
        }
    }
}
