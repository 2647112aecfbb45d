//! The spans of a slice.

ghost use Rattle.std.specs.Prelude.{◌≡◌, ◌≤◌, ◌<◌, ◌^◌, MatchOption};
ghost use Rattle.cla_grammar.specs.Machine as machine;
ghost use Rattle.cla_grammar.specs.Machine.{ended};
ghost use Rattle.cla_grammar.specs.Reader.{test};
ghost use Rattle.cla_tokens.specs.Values.{value};
ghost use Rattle.cla_tokens.specs.View.{kind_of, token_of};
ghost use Rattle.cla_script.specs.View.{span_of, stack_of, tree_of};
ghost use Rattle.cla_script.specs.Takes.{part_of, seen_of, settled, Tells};

use crate::builder::{Builder, Part, Phase, Seen};
use crate::expr::{Expr, Span};
use crate::frame::Frame;
use crate::refusal::Refusal;
use cla_grammar::{Place, ScriptKind};
use cla_num::Number;
use cla_tokens::{Token, TokenKind, digits_value};
use std::alloc::Global;

// The number of these digits within a span, where it is below its limit.
fn bound(digits: &[u8]) -> Option<u32>
    ensures { MatchOption result (2 ^ 31 ≤ value digits.now)
        (λ n. (n ≡ value digits.now) × (value digits.now < 2 ^ 31)) }
{
    let size = digits_value(digits)?;
    if size < 1 << 31 {
        u32::try_from(size).ok()
    } else {
        None
    }
}

// After the token behind a span.
fn ended<N: Number + Drop>(
    alloc: Global,
    frames: Vec<Frame<N>>,
    at: Place,
    tree: Expr<N>,
    part: Part,
    span: Span,
    token: Token,
) -> Result<Builder<N>, Refusal>
    ensures { Tells N.value result (settled
        (ended (kind_of token.entry.kind) at (stack_of N.value frames.items) (tree_of N.value tree)
        (part_of part) (span_of span))) }
{
    match (token.kind, part) {
        (TokenKind::Comma, Part::Rows) => {
            Ok(Builder::from_parts(
                frames,
                Phase::InSpan(at, tree, Part::Cols(span), Seen::Nothing),
            ))
        }
        (TokenKind::CloseSquare, Part::Cols(rows)) => {
            let a = Box::new(alloc, tree)?;
            Ok(Builder::from_parts(
                frames,
                Phase::Have(
                    true,
                    Expr::Slice {
                        place: at,
                        a,
                        rows,
                        cols: span,
                    },
                ),
            ))
        }
        _ => Err(Refusal::Kind(ScriptKind::Syntax)),
    }
}

/// After the next token within the brackets of a slice at this place.
pub fn in_span<N: Number + Drop>(
    alloc: Global,
    frames: Vec<Frame<N>>,
    at: Place,
    tree: Expr<N>,
    part: Part,
    seen: Seen,
    token: Token,
) -> Result<Builder<N>, Refusal>
    ensures { Tells N.value result
        (test N.BITS
        (machine.InSpan at (stack_of N.value frames.items) (tree_of N.value tree) (part_of part) (seen_of seen))
        (token_of token.entry)) }
{
    match seen {
        Seen::Nothing => match token.kind {
            TokenKind::Number(digits) => match bound(digits) {
                Some(n) => Ok(Builder::from_parts(
                    frames,
                    Phase::InSpan(at, tree, part, Seen::Once(n)),
                )),
                None => Err(Refusal::Kind(ScriptKind::Literal)),
            },
            _ => ended(alloc, frames, at, tree, part, Span::All, token),
        },
        Seen::Once(n) => match token.kind {
            TokenKind::Colon => Ok(Builder::from_parts(
                frames,
                Phase::InSpan(at, tree, part, Seen::Parted(n)),
            )),
            _ => ended(alloc, frames, at, tree, part, Span::One { n }, token),
        },
        Seen::Parted(n) => match token.kind {
            TokenKind::Number(digits) => match bound(digits) {
                Some(m) => Ok(Builder::from_parts(
                    frames,
                    Phase::InSpan(at, tree, part, Seen::Both(n, m)),
                )),
                None => Err(Refusal::Kind(ScriptKind::Literal)),
            },
            _ => Err(Refusal::Kind(ScriptKind::Syntax)),
        },
        Seen::Both(first, last) => ended(
            alloc,
            frames,
            at,
            tree,
            part,
            Span::Pair { first, last },
            token,
        ),
    }
}
