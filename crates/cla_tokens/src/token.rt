//! The tokens of a script, with their places.

use cla_grammar::{BinOp, Bind, Call, Place, SaveWord};

/// A token. Numbers, names and texts borrow their bytes from the script; a text is without quotes.
#[derive(Clone, Copy, Drop)]
pub enum TokenKind<'a> {
    Number(&'a [u8]),
    Name(&'a str),
    Text(&'a str),
    Sign(BinOp),
    Assign,
    Power,
    Open,
    Close,
    OpenSquare,
    CloseSquare,
    Comma,
    Colon,
    Function(Call),
    Binder(Bind),
    Read,
    Print,
    Save(SaveWord),
    Reserved,
}

/// A token and where it stands.
#[derive(Clone, Copy, Drop)]
pub struct Token<'a> {
    pub place: Place,
    pub kind: TokenKind<'a>,
}

/// What stands in a script: a token, a byte or a quote that begins none, or the end of a statement,
/// by `;` or by the line's end.
#[derive(Clone, Copy, Drop)]
pub enum Item<'a> {
    Token(Token<'a>),
    BadByte(Place),
    BadText(Place),
    End(Place),
}
