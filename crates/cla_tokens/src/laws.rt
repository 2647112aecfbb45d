//! Laws of signs and of the scripts of texts. Each stands on a function with an empty body, whose contract it is.

ghost use Rattle.cla_tokens.specs.Laws.{LongestSignIsTaken, ScriptsAreFormed};

/// Of the signs that begin the bytes the longest is taken.
pub fn longest_sign_is_taken()
    ensures { LongestSignIsTaken }
{}

/// The statements of a text are formed: names are words that aren't reserved, files are texts, numbers are in
/// their limits, and the canonical text has at most 256 tokens. There are at most two for each byte.
pub fn scripts_are_formed()
    ensures { ScriptsAreFormed }
{}
