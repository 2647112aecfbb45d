//! What is measured.

use cla_group::Kind;

/// How many columns the tables have.
pub const COLUMNS: u32 = 20;

/// What is measured: tables whose groups have equally many columns.
#[derive(Clone, Copy)]
pub struct Task {
    pub kind: Kind,
    pub rows: u32,
    pub groups: u32,

    /// How many tuples a group has beside that of zeros.
    pub tuples: u32,

    /// How many of a thousand rows have one of these.
    pub listed: u32,

    /// How often each call is measured at most.
    pub rounds: u32,
}

impl Task {
    /// The task in words: KIND ROWS GROUPS TUPLES LISTED_PER_MILLE ROUNDS. KIND is plain, codes, offsets or
    /// runs.
    pub fn from_words(words: &[String]) -> Option<Task> {
        let [kind, rows, groups, tuples, listed, rounds] = words else {
            return None;
        };
        Some(Task {
            kind: kind_of(kind)?,
            rows: rows.parse().ok()?,
            groups: groups.parse().ok()?,
            tuples: tuples.parse().ok()?,
            listed: listed.parse().ok()?,
            rounds: rounds.parse().ok()?,
        })
    }
}

// The kind of this name.
fn kind_of(name: &str) -> Option<Kind> {
    match name {
        "plain" => Some(Kind::Plain),
        "codes" => Some(Kind::Codes),
        "offsets" => Some(Kind::Offsets),
        "runs" => Some(Kind::Runs),
        _ => None,
    }
}
