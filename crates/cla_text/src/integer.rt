//! The integer that a word spells.

ghost use Rattle.std.specs.Prelude.{◌≡◌, length, true, IfSome};
ghost use Rattle.std.specs.List.{list_all};
ghost use Rattle.std.specs.Char.{is_ascii_digit};
ghost use Rattle.std.specs.Str.Parse.{without_leading_sign, digits_value, signed_digits_value};
ghost use Rattle.cla_text.specs.Integers.{are_digits, is_int_word, int_of};

use std::str;

/// A word that is no integer: it isn't of the form, or its value isn't in 128 bits.
#[derive(Clone, Copy, Debug, PartialEq, Eq)]
pub enum BadInt {
    Form,
    Wide,
}

/// The integer that a word spells: an optional `+` or `-`, and then decimal digits, at least one.
/// `Form` exactly where the word isn't so, and `Wide` exactly where its value isn't in 128 bits.
pub fn read_int(word: &[u8]) -> Result<i128, BadInt>
    ensures { result ≡ int_of word.now }
{
    match short_size(without_sign(word)) {
        Some(size) => Ok(with_sign(word, size)),
        None => read_any(word),
    }
}

// The value of digits that fits 64 bits, in one pass: that is nearly every word of a table. `None`
// says nothing.
fn short_size(digits: &[u8]) -> Option<u64>
    ensures { IfSome result (λ size. (are_digits digits.now ≡ true) × (size ≡ digits_value 10 digits.now)) }
{
    let mut size = 0u64;
    for digit in digits {
        if !digit.is_ascii_digit() {
            return None;
        }
        let tens = size.checked_mul(10)?;
        size = tens.checked_add(u64::from(*digit - b'0'))?;
    }
    if digits.is_empty() { None } else { Some(size) }
}

fn with_sign(word: &[u8], size: u64) -> i128
    requires { size ≡ digits_value 10 (without_leading_sign word.now) }
    ensures { result ≡ signed_digits_value 10 word.now }
{
    match word {
        [b'-', ..] => -i128::from(size),
        _ => i128::from(size),
    }
}

fn read_any(word: &[u8]) -> Result<i128, BadInt>
    ensures { result ≡ int_of word.now }
{
    if !is_int_word(word) {
        return Err(BadInt::Form);
    }
    match str::from_utf8(word) {
        Ok(text) => match text.parse::<i128>() {
            Ok(v) => Ok(v),
            Err(_) => Err(BadInt::Wide),
        },
        Err(_) => Err(BadInt::Form),
    }
}

// Whether a word has the form of an integer.
#[tactic(auto, unfolding(crate::specs::Integers::is_int_word))]
fn is_int_word(word: &[u8]) -> bool
    ensures { result ≡ is_int_word word.now }
{
    let digits = without_sign(word);
    digits.len() > 0 && all_digits(digits)
}

fn without_sign(word: &[u8]) -> &[u8]
    ensures { result.now ≡ without_leading_sign word.now }
{
    match word {
        [] => word,
        [first, rest @ ..] => {
            if *first == b'-' {
                rest
            } else if *first == b'+' {
                rest
            } else {
                word
            }
        }
    }
}

fn all_digits(digits: &[u8]) -> bool
    ensures { result ≡ list_all is_ascii_digit digits.now }
{
    digits.iter().all(|digit| digit.is_ascii_digit())
}
