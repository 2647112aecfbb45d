//! The trees of scripts.

use cla_grammar::{BinOp, Bind, Call, Place};
use cla_num::Name;

/// Which rows or columns a slice keeps: all, the n-th, or those from the first to the last. They
/// count from 1.
#[derive(Clone, Copy, Debug, PartialEq, Eq)]
pub enum Span {
    All,
    One { n: u32 },
    Pair { first: u32, last: u32 },
}

/// An expression. Each place is that of the operator's sign, the function's word, the name, or `[`.
#[derive(Drop)]
pub enum Expr<N> {
    Number {
        value: N,
    },
    Named {
        place: Place,
        name: Name,
    },
    Neg {
        place: Place,
        a: Box<Expr<N>>,
    },
    Square {
        place: Place,
        a: Box<Expr<N>>,
    },
    Binary {
        place: Place,
        op: BinOp,
        a: Box<Expr<N>>,
        b: Box<Expr<N>>,
    },
    Call {
        place: Place,
        call: Call,
        a: Box<Expr<N>>,
    },
    Bind {
        place: Place,
        bind: Bind,
        a: Box<Expr<N>>,
        b: Box<Expr<N>>,
    },
    Slice {
        place: Place,
        a: Box<Expr<N>>,
        rows: Span,
        cols: Span,
    },
}

/// A statement. `place` is that of the word `write` or `pack`, `file_place` that of the file's name.
#[derive(Drop)]
pub enum Statement<N> {
    Read {
        name: Name,
        file: Name,
    },
    Let {
        name: Name,
        value: Expr<N>,
    },
    Print {
        value: Expr<N>,
    },
    Write {
        value: Expr<N>,
        place: Place,
        file: Name,
        file_place: Place,
    },
    Pack {
        value: Expr<N>,
        place: Place,
        file: Name,
        file_place: Place,
    },
}

/// A script: its statements in order.
#[derive(Drop)]
pub struct Script<N> {
    pub statements: Vec<Statement<N>>,
}
