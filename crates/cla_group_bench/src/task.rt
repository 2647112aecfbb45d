//! What is measured.

use cla_group::Kind;
use cla_measuring::Draw;

/// What is measured: groups of one column.
#[derive(Clone, Copy)]
pub struct Task {
    pub kind: Kind,
    pub rows: u32,

    /// How many tuples there are beside that of zeros.
    pub tuples: u32,

    /// How many of a thousand rows have one of these.
    pub listed: u32,

    /// How often each call is measured.
    pub rounds: u32,

    /// How many groups are kept.
    pub copies: u32,
}

impl Task {
    /// The task in words: KIND ROWS TUPLES LISTED_PER_MILLE ROUNDS COPIES, and KIND is plain, codes,
    /// offsets or runs.
    pub fn from_words(words: &[String]) -> Option<Task> {
        let [kind, rows, tuples, listed, rounds, copies] = words else {
            return None;
        };
        Some(Task {
            kind: kind_of(kind)?,
            rows: rows.parse().ok()?,
            tuples: tuples.parse().ok()?,
            listed: listed.parse().ok()?,
            rounds: rounds.parse().ok()?,
            copies: copies.parse().ok()?,
        })
    }

    /// How the groups' codes are drawn.
    pub fn draw(&self) -> Draw {
        Draw {
            kind: self.kind,
            rows: self.rows,
            tuples: self.tuples,
            listed: self.listed,
            salt: 0,
        }
    }
}

// The kind of this name.
fn kind_of(name: &str) -> Option<Kind> {
    match name {
        "plain" => Some(Kind::Plain),
        "codes" => Some(Kind::Codes),
        "offsets" => Some(Kind::Offsets),
        "runs" => Some(Kind::Runs),
        _ => None,
    }
}
