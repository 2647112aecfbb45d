//! The tokens of scripts: what stands at the front of a line, and what a script holds from place to
//! place. The signs and the reserved words stand in one table each.
#![tactic(auto)]

mod laws;
mod number;
mod pieces;
mod token;
mod words;

pub use laws::{longest_sign_is_taken, scripts_are_formed};
pub use number::digits_value;
pub use pieces::{Piece, piece_of};
pub use token::{Item, Token, TokenKind};
