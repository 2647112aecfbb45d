//! What stands at the front of the rest of a line.

ghost use Rattle.std.specs.Prelude.{◌≡◌, ◌+◌, ◌≤◌, length, true};
ghost use Rattle.std.specs.List.{prefix_len, list_all};
ghost use Rattle.std.specs.Char.{is_ascii_digit};
ghost use Rattle.cla_tokens.specs.Pieces.{piece_at, sign_at, text_at, is_word_byte, is_text_byte};
ghost use Rattle.cla_tokens.specs.Items.{IsWithin, piece_of};

use crate::token::TokenKind;
use crate::words::word_of;
use cla_grammar::BinOp;
use cla_num::CellOp;
use std::str;

/// What stands at the front of the rest of a line.
#[derive(Clone, Copy, Drop)]
pub enum Piece<'a> {
    /// Nothing, or a comment.
    LineEnd,
    /// A space or a tab.
    Blank,
    /// The sign that ends a statement.
    Semicolon,
    /// A token, and how many bytes it has.
    Found(TokenKind<'a>, usize),
    /// A byte that begins no token.
    BadByte,
    /// A quote that begins no text.
    BadText,
}

fn is_word_byte(b: u8) -> bool
    ensures { result ≡ is_word_byte b }
{
    b.is_ascii_alphanumeric() || b == b'_'
}

fn is_text_byte(b: u8) -> bool
    ensures { result ≡ is_text_byte b }
{
    32 <= b && b <= 126 && b != b'"'
}

fn word_len(bytes: &[u8]) -> usize
    ensures { result ≡ prefix_len is_word_byte bytes.now }
{
    bytes.iter().take_while(|b| is_word_byte(**b)).count()
}

fn text_len(bytes: &[u8]) -> usize
    ensures { result ≡ prefix_len is_text_byte bytes.now }
{
    bytes.iter().take_while(|b| is_text_byte(**b)).count()
}

fn digits_len(bytes: &[u8]) -> usize
    ensures { result ≡ prefix_len is_ascii_digit bytes.now }
{
    bytes.iter().take_while(|b| b.is_ascii_digit()).count()
}

// The longest sign at the front.
#[tactic(auto, unfolding(crate::specs::Pieces::sign_at))]
fn sign_of(bytes: &[u8]) -> Piece<'_>
    ensures value { piece_of result ≡ sign_at bytes.now }
    ensures within { IsWithin (piece_of result) (length bytes.now) }
{
    match bytes {
        [b'%', b'*', b'%', ..] => Piece::Found(TokenKind::Sign(BinOp::Product), 3),
        [b'%', b'/', b'%', ..] => Piece::Found(TokenKind::Sign(BinOp::Cell(CellOp::Div)), 3),
        [b'%', b'%', ..] => Piece::Found(TokenKind::Sign(BinOp::Cell(CellOp::Mod)), 2),
        [b'=', b'=', ..] => Piece::Found(TokenKind::Sign(BinOp::Cell(CellOp::Eq)), 2),
        [b'!', b'=', ..] => Piece::Found(TokenKind::Sign(BinOp::Cell(CellOp::Ne)), 2),
        [b'<', b'=', ..] => Piece::Found(TokenKind::Sign(BinOp::Cell(CellOp::Le)), 2),
        [b'>', b'=', ..] => Piece::Found(TokenKind::Sign(BinOp::Cell(CellOp::Ge)), 2),
        [b'=', ..] => Piece::Found(TokenKind::Assign, 1),
        [b'<', ..] => Piece::Found(TokenKind::Sign(BinOp::Cell(CellOp::Lt)), 1),
        [b'>', ..] => Piece::Found(TokenKind::Sign(BinOp::Cell(CellOp::Gt)), 1),
        [b'+', ..] => Piece::Found(TokenKind::Sign(BinOp::Cell(CellOp::Add)), 1),
        [b'-', ..] => Piece::Found(TokenKind::Sign(BinOp::Cell(CellOp::Sub)), 1),
        [b'*', ..] => Piece::Found(TokenKind::Sign(BinOp::Cell(CellOp::Mul)), 1),
        [b'^', ..] => Piece::Found(TokenKind::Power, 1),
        [b'(', ..] => Piece::Found(TokenKind::Open, 1),
        [b')', ..] => Piece::Found(TokenKind::Close, 1),
        [b'[', ..] => Piece::Found(TokenKind::OpenSquare, 1),
        [b']', ..] => Piece::Found(TokenKind::CloseSquare, 1),
        [b',', ..] => Piece::Found(TokenKind::Comma, 1),
        [b':', ..] => Piece::Found(TokenKind::Colon, 1),
        _ => Piece::BadByte,
    }
}

// The text after an opening quote: 1 to 255 printable bytes and a closing quote.
#[tactic(auto, unfolding(crate::specs::Pieces::text_at))]
fn text_of(bytes: &[u8]) -> Piece<'_>
    ensures value { piece_of result ≡ text_at bytes.now }
    ensures within { IsWithin (piece_of result) (length bytes.now + 1) }
{
    let n = text_len(bytes);
    if 0 < n && n <= 255 && bytes.get(n) == Some(&b'"') {
        match str::from_utf8(&bytes[..n]) {
            Ok(text) => Piece::Found(TokenKind::Text(text), n + 2),
            Err(_) => Piece::BadText,
        }
    } else {
        Piece::BadText
    }
}

/// What stands at the front of these bytes, which are the rest of a line. It takes no memory, and
/// its time grows with the length of what it finds.
#[tactic(auto, unfolding(crate::specs::Pieces::piece_at))]
pub fn piece_of(bytes: &[u8]) -> Piece<'_>
    ensures value { piece_of result ≡ piece_at bytes.now }
    ensures within { IsWithin (piece_of result) (length bytes.now) }
{
    let [first, rest @ ..] = bytes else {
        return Piece::LineEnd
    };
    let first = *first;
    if first == b' ' || first == b'\t' {
        Piece::Blank
    } else if first == b'#' {
        Piece::LineEnd
    } else if first == b';' {
        Piece::Semicolon
    } else if first.is_ascii_digit() {
        let n = digits_len(bytes);
        Piece::Found(TokenKind::Number(&bytes[..n]), n)
    } else if first.is_ascii_alphabetic() {
        let n = word_len(bytes);
        match str::from_utf8(&bytes[..n]) {
            Ok(word) => Piece::Found(word_of(word), n),
            Err(_) => Piece::BadByte,
        }
    } else if first == b'"' {
        text_of(rest)
    } else {
        sign_of(bytes)
    }
}
