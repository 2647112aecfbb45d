//! Lines that say nothing.

ghost use Rattle.std.specs.Prelude.{◌≡◌};
ghost use Rattle.cla_text.specs.Words.{words_of};
ghost use Rattle.cla_market.specs.Texts.{is_skipped};

use cla_text::Words;

/// Whether a line after the banner is skipped: it has no word, or its first word begins with `%`.
pub fn is_skipped(line: &[u8]) -> bool
    ensures { result ≡ is_skipped (words_of line.now) }
{
    match Words::new(line).next() {
        None => true,
        Some(word) => word.len() > 0 && word[0] == b'%',
    }
}
