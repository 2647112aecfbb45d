//! The reserved words.

ghost use Rattle.std.specs.Prelude.{◌≡◌};
ghost use Rattle.cla_tokens.specs.Words.{word_of};
ghost use Rattle.cla_tokens.specs.View.{kind_of};

use crate::token::TokenKind;
use cla_grammar::{Bind, Call, SaveWord};

/// The token of a word: that of a reserved word, or a name.
#[tactic(auto, unfolding(crate::specs::Words::word_of))]
pub fn word_of(word: &str) -> TokenKind<'_>
    ensures { kind_of result ≡ word_of word.now }
{
    match word {
        "read" => TokenKind::Read,
        "print" => TokenKind::Print,
        "write" => TokenKind::Save(SaveWord::Write),
        "pack" => TokenKind::Save(SaveWord::Pack),
        "t" => TokenKind::Function(Call::Transpose),
        "sum" => TokenKind::Function(Call::Sum),
        "rowSums" => TokenKind::Function(Call::RowSums),
        "colSums" => TokenKind::Function(Call::ColSums),
        "min" => TokenKind::Function(Call::Min),
        "max" => TokenKind::Function(Call::Max),
        "rowMins" => TokenKind::Function(Call::RowMins),
        "rowMaxs" => TokenKind::Function(Call::RowMaxs),
        "colMins" => TokenKind::Function(Call::ColMins),
        "colMaxs" => TokenKind::Function(Call::ColMaxs),
        "nrow" => TokenKind::Function(Call::Nrow),
        "ncol" => TokenKind::Function(Call::Ncol),
        "cbind" => TokenKind::Binder(Bind::Columns),
        "rbind" => TokenKind::Binder(Bind::Rows),
        "for" => TokenKind::Reserved,
        "in" => TokenKind::Reserved,
        "if" => TokenKind::Reserved,
        "else" => TokenKind::Reserved,
        "while" => TokenKind::Reserved,
        "function" => TokenKind::Reserved,
        "table" => TokenKind::Reserved,
        "groupSums" => TokenKind::Reserved,
        "frame" => TokenKind::Reserved,
        "decode" => TokenKind::Reserved,
        "append" => TokenKind::Reserved,
        _ => TokenKind::Name(word),
    }
}
