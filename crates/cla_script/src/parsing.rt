//! The lines of a script, and their pieces.

ghost use Rattle.std.specs.Prelude.{◌≡◌, ◌≤◌, ◌<◌, ◌+◌, ◌^◌, length, drop, IfOk};
ghost use Rattle.std.specs.List.{position_or_len};
ghost use Rattle.cla_num.specs.Bits.{IsSupported};
ghost use Rattle.cla_spec.specs.Lines.{is_lf, without_cr, first_line, after_line};
ghost use Rattle.cla_grammar.specs.Reader.{take_items};
ghost use Rattle.cla_tokens.specs.Items.{items_from, line_items};
ghost use Rattle.cla_script.specs.Reads.{reading_of, Reads, statements_of};
ghost use Rattle.cla_script.specs.Parses.{Gives, Parses};
ghost use Rattle.cla_tokens.specs.Formed.{AllFormed};
ghost use Rattle.cla_tokens.specs.Scripts.{script_in};

use crate::expr::Script;
use crate::fault::ScriptFault;
use crate::reader::Reader;
use cla_grammar::{Place, ScriptKind};
use cla_num::Number;
use cla_tokens::{Item, Piece, Token, piece_of};
use std::alloc::Global;

// Reads the pieces of a line.
fn read_pieces<N: Number + Drop>(
    alloc: Global,
    reader: Reader<N>,
    line: &[u8],
    number: u32,
) -> Result<Reader<N>, ScriptFault>
    requires supported { IsSupported N.BITS }
    requires short { length line.now < 2 ^ 31 }
    ensures { Reads N.value result (take_items N.BITS (reading_of N.value reader) (items_from number 0 1 line.now)) }
{
    let mut reader = reader;
    let mut at = 0;
    'pieces: while at < line.len() {
        let place = Place {
            line: number,
            col: at as u32 + 1,
        };
        match piece_of(&line[at..]) {
            Piece::LineEnd => return Ok(reader),
            Piece::Blank => at += 1,
            Piece::Semicolon => {
                reader = match reader.take(alloc, Item::End(place)) {
                    Ok(reader) => reader,
                    Err(fault) => return Err(fault),
                };
                at += 1;
            }
            Piece::Found(kind, len) => {
                reader = match reader.take(alloc, Item::Token(Token { place, kind })) {
                    Ok(reader) => reader,
                    Err(fault) => return Err(fault),
                };
                at += len;
            }
            Piece::BadByte => return Err(ScriptFault::at(place, ScriptKind::Char)),
            Piece::BadText => return Err(ScriptFault::at(place, ScriptKind::Text)),
        }
    }
    Ok(reader)
}

// Reads a line, with its end.
fn read_line<N: Number + Drop>(
    alloc: Global,
    reader: Reader<N>,
    line: &[u8],
    number: u32,
) -> Result<Reader<N>, ScriptFault>
    requires supported { IsSupported N.BITS }
    requires short { length line.now < 2 ^ 31 }
    ensures { Reads N.value result (take_items N.BITS (reading_of N.value reader) (line_items number line.now)) }
{
    let reader = match read_pieces(alloc, reader, line, number) {
        Ok(reader) => reader,
        Err(fault) => return Err(fault),
    };
    reader.take(
        alloc,
        Item::End(Place {
            line: number,
            col: line.len() as u32 + 1,
        }),
    )
}

// How many bytes stand before the first LF.
fn line_len(text: &[u8]) -> usize
    ensures place { result ≡ position_or_len is_lf text.now }
    ensures within { result ≤ length text.now }
{
    for i in 0..text.len() {
        if text[i] == b'\n' {
            return i;
        }
    }
    text.len()
}

// The line without one CR at its end.
fn without_cr(line: &[u8]) -> &[u8]
    ensures value { result.now ≡ without_cr line.now }
    ensures within { length result.now ≤ length line.now }
{
    match line {
        [front @ .., b'\r'] => front,
        _ => line,
    }
}

// What stands behind the first byte, if there is one.
fn behind(back: &[u8]) -> &[u8]
    ensures { result.now ≡ drop 1 back.now }
{
    match back {
        [_, rest @ ..] => rest,
        [] => back,
    }
}

// The first line of a text, and what stands behind it.
#[tactic(auto, unfolding(cla_spec::specs::Lines::first_line, cla_spec::specs::Lines::after_line))]
fn cut_line(text: &[u8]) -> (&[u8], &[u8])
    ensures front { result.0.now ≡ first_line text.now }
    ensures back { result.1.now ≡ after_line text.now }
    ensures short { length result.0.now ≤ length text.now }
{
    let n = line_len(text);
    let (line, back) = text.split_at(n);
    (without_cr(line), behind(back))
}

/// The statements of a script, or the first token that is refused with its place and kind, which is
/// never `Clash`. The text has at most 2^20 bytes. The statements are formed: each is the tree of its
/// canonical text, which has at most 256 tokens. It goes over the text once, and the stack that it keeps is
/// of the open statement alone.
pub fn parse<N: Number + Drop>(alloc: Global, text: &[u8]) -> Result<Script<N>, ScriptFault>
    requires supported { IsSupported N.BITS }
    requires short { length text.now ≤ 2 ^ 20 }
    ensures answer { Parses N.BITS N.value text.now result }
    ensures computed { Gives N.value result (script_in N.BITS text.now) }
    ensures formed { IfOk result (λ s. AllFormed (statements_of N.value s.statements.items)) }
    ensures few { IfOk result (λ s. length s.statements.items < 2 ^ 32) }
{
    let mut reader = Reader::new(alloc);
    let mut rest = text;
    let mut number = 1;
    'lines: while !rest.is_empty() {
        let (line, back) = cut_line(rest);
        reader = match read_line(alloc, reader, line, number) {
            Ok(reader) => reader,
            Err(fault) => return Err(fault),
        };
        rest = back;
        number += 1;
    }
    Ok(Script {
        statements: reader.statements,
    })
}
