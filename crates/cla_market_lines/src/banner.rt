//! The banner.

ghost use Rattle.std.specs.Prelude.{◌≡◌};
ghost use Rattle.cla_text.specs.Words.{words_of};
ghost use Rattle.cla_market.specs.Banners.{banner_in, format_of, field_of, symmetry_of, object_in, supported};

use crate::number::five_words;
use cla_market::{Banner, Field, Format, LineFault, Symmetry};
use cla_text::same_word;

/// What the banner says, by the words of line 1.
#[tactic(auto, unfolding(cla_market::specs::Banners::banner_in))]
pub fn read_banner(line: &[u8]) -> Result<Banner, LineFault>
    ensures { result ≡ banner_in (words_of line.now) }
{
    match five_words(line) {
        None => Err(LineFault::Banner),
        Some((first, object, format, field, symmetry)) => {
            if !same_word(first, b"%%matrixmarket") {
                return Err(LineFault::Banner);
            }
            object_in(object)?;
            let format = format_of(format).ok_or(LineFault::Unsupported { place: 3 })?;
            let field = field_of(field).ok_or(LineFault::Unsupported { place: 4 })?;
            let symmetry = symmetry_of(symmetry).ok_or(LineFault::Unsupported { place: 5 })?;
            supported(format, field, symmetry)
        }
    }
}

fn object_in(word: &[u8]) -> Result<(), LineFault>
    ensures { result ≡ object_in word.now }
{
    if same_word(word, b"matrix") {
        Ok(())
    } else {
        Err(LineFault::Unsupported { place: 2 })
    }
}

fn format_of(word: &[u8]) -> Option<Format>
    ensures { result ≡ format_of word.now }
{
    if same_word(word, b"coordinate") {
        Some(Format::Coordinate)
    } else if same_word(word, b"array") {
        Some(Format::Array)
    } else {
        None
    }
}

fn field_of(word: &[u8]) -> Option<Field>
    ensures { result ≡ field_of word.now }
{
    if same_word(word, b"integer") {
        Some(Field::Integer)
    } else if same_word(word, b"pattern") {
        Some(Field::Pattern)
    } else {
        None
    }
}

fn symmetry_of(word: &[u8]) -> Option<Symmetry>
    ensures { result ≡ symmetry_of word.now }
{
    if same_word(word, b"general") {
        Some(Symmetry::General)
    } else if same_word(word, b"symmetric") {
        Some(Symmetry::Symmetric)
    } else if same_word(word, b"skew-symmetric") {
        Some(Symmetry::SkewSymmetric)
    } else {
        None
    }
}

// An array has values, and a skew-symmetric matrix too.
fn supported(format: Format, field: Field, symmetry: Symmetry) -> Result<Banner, LineFault>
    ensures { result ≡ supported format field symmetry }
{
    match (format, field, symmetry) {
        (Format::Array, Field::Pattern, _) => Err(LineFault::Unsupported { place: 4 }),
        (Format::Coordinate, Field::Pattern, Symmetry::SkewSymmetric) => {
            Err(LineFault::Unsupported { place: 5 })
        }
        _ => Ok(Banner {
            format,
            field,
            symmetry,
        }),
    }
}
