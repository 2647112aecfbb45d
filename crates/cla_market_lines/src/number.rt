//! Words and the numbers that they spell.

ghost use Rattle.std.specs.Prelude.{◌≡◌, ◌<◌, IfOk};
ghost use Rattle.std.specs.Option.{option_map};
ghost use Rattle.cla_text.specs.Words.{words_of};
ghost use Rattle.cla_market.specs.Results.{one_of, two_of, three_of, five_of};
ghost use Rattle.cla_market.specs.Entries.{number_in, index_of};
ghost use Rattle.cla_market_lines.specs.Lines.{two_views, three_views, five_views};

use cla_market::LineFault;
use cla_text::{BadInt, Words, read_int};

/// The word of a line that has one word.
pub(crate) fn one_word(line: &[u8]) -> Option<&[u8]>
    ensures { option_map (λ w. w.now) result ≡ one_of (words_of line.now) }
{
    let mut words = Words::new(line);
    let first = words.next()?;
    match words.next() {
        None => Some(first),
        Some(_) => None,
    }
}

/// The words of a line that has two words.
pub(crate) fn two_words(line: &[u8]) -> Option<(&[u8], &[u8])>
    ensures { option_map two_views result ≡ two_of (words_of line.now) }
{
    let mut words = Words::new(line);
    let first = words.next()?;
    let second = words.next()?;
    match words.next() {
        None => Some((first, second)),
        Some(_) => None,
    }
}

/// The words of a line that has three words.
pub(crate) fn three_words(line: &[u8]) -> Option<(&[u8], &[u8], &[u8])>
    ensures { option_map three_views result ≡ three_of (words_of line.now) }
{
    let mut words = Words::new(line);
    let first = words.next()?;
    let second = words.next()?;
    let third = words.next()?;
    match words.next() {
        None => Some((first, second, third)),
        Some(_) => None,
    }
}

/// The words of a line that has five words.
pub(crate) fn five_words(line: &[u8]) -> Option<(&[u8], &[u8], &[u8], &[u8], &[u8])>
    ensures { option_map five_views result ≡ five_of (words_of line.now) }
{
    let mut words = Words::new(line);
    let first = words.next()?;
    let second = words.next()?;
    let third = words.next()?;
    let fourth = words.next()?;
    let fifth = words.next()?;
    match words.next() {
        None => Some((first, second, third, fourth, fifth)),
        Some(_) => None,
    }
}

/// The integer that a word of an entry line spells, `None` where it is too wide.
pub(crate) fn number_in(word: &[u8]) -> Result<Option<i128>, LineFault>
    ensures { result ≡ number_in word.now }
{
    match read_int(word) {
        Ok(v) => Ok(Some(v)),
        Err(BadInt::Wide) => Ok(None),
        Err(BadInt::Form) => Err(LineFault::Entry),
    }
}

/// An index from 1 to most, counted from 0.
pub(crate) fn index_of(v: Option<i128>, most: u32) -> Result<u32, LineFault>
    ensures exact { result ≡ index_of v most }
    ensures within { IfOk result (λ i. i < most) }
{
    match v {
        Some(i) => {
            if i >= 1 && i <= most as i128 {
                Ok((i - 1) as u32)
            } else {
                Err(LineFault::Index)
            }
        }
        None => Err(LineFault::Index),
    }
}
