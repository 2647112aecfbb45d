//! The words of a line.

ghost use Rattle.std.specs.Prelude.{◌≡◌, ◌<◌, ◌≤◌, length, ℕ, slice_index};
ghost use Rattle.std.specs.Iterator.{YieldsFirstBy, item_count};
ghost use Rattle.std.specs.List.{prefix_len, position_or_len};
ghost use Rattle.cla_text.specs.Words.{is_blank, words_of, is_same_word};

/// The words of a line: its maximal pieces without blanks, in the order of the line. A blank is a
/// space or a tab.
#[derive(Clone, Copy, Debug, Drop)]
pub struct Words<'a> {
    rest: &'a [u8],
}

impl<'a> Words<'a> {
    /// The words of this line.
    pub fn new(line: &'a [u8]) -> Words<'a>
        ensures { result.rest.now ≡ line.now }
    {
        Words { rest: line }
    }
}

impl<'a> Iterator for Words<'a> {
    type Item = &'a [u8];

    ghost next_gives = { YieldsFirstBy (λ x. x.now) (λ s. words_of s.rest.now) };

    ghost remaining = { item_count (λ s. words_of s.rest.now) };

    fn next(&mut self) -> Option<&'a [u8]> {
        let (_, tail) = self.rest.split_at(word_start(self.rest));
        if tail.is_empty() {
            self.rest = tail;
            return None;
        }
        let (word, rest) = tail.split_at(word_end(tail));
        self.rest = rest;
        Some(word)
    }
}

/// Whether a word is `lower` once its letters A to Z are taken as a to z.
pub fn same_word(word: &[u8], lower: &[u8]) -> bool
    ensures { result ≡ is_same_word word.now lower.now }
{
    if word.len() != lower.len() {
        return false;
    }
    for i in 0..word.len() {
        if word[i].to_ascii_lowercase() != lower[i] {
            return false;
        }
    }
    true
}

#[inline(always)]
fn is_blank(byte: u8) -> bool
    ensures { result ≡ is_blank byte }
{
    byte == b' ' || byte == b'\t'
}

// Where the first word of a line begins.
fn word_start(line: &[u8]) -> usize
    ensures place { result ≡ prefix_len is_blank line.now }
    ensures within { result ≤ length line.now }
{
    for i in 0..line.len() {
        if !is_blank(line[i]) {
            return i;
        }
    }
    line.len()
}

// Where the word at a line's begin ends.
fn word_end(line: &[u8]) -> usize
    ensures place { result ≡ position_or_len is_blank line.now }
    ensures within { result ≤ length line.now }
{
    for i in 0..line.len() {
        if is_blank(line[i]) {
            return i;
        }
    }
    line.len()
}
