//! What is measured.

/// How the entries of a matrix are drawn.
#[derive(Clone, Copy, Debug, PartialEq, Eq)]
pub enum Drawn {
    /// Four columns at a time hang on one number below 10.
    Correlated,
    /// Codes that come in runs, what hangs on them, flags, and prices.
    Catalogue,
    /// Numbers below 1,000, each by itself.
    Random,
    /// 2 % of the entries are below 10, and the others are 0.
    Sparse,
}

/// What is measured: the cut of a matrix.
#[derive(Clone, Copy)]
pub struct Task {
    pub drawn: Drawn,
    pub rows: u32,
    pub cols: u32,

    /// How often it is measured.
    pub rounds: u32,
}

impl Task {
    /// The task in words: DRAWN ROWS COLUMNS ROUNDS, and DRAWN is correlated, catalogue, random or sparse.
    pub fn from_words(words: &[String]) -> Option<Task> {
        let [drawn, rows, cols, rounds] = words else {
            return None;
        };
        Some(Task {
            drawn: drawn_as(drawn)?,
            rows: rows.parse().ok()?,
            cols: cols.parse().ok()?,
            rounds: rounds.parse().ok()?,
        })
    }
}

// The way of drawing with this name.
fn drawn_as(name: &str) -> Option<Drawn> {
    match name {
        "correlated" => Some(Drawn::Correlated),
        "catalogue" => Some(Drawn::Catalogue),
        "random" => Some(Drawn::Random),
        "sparse" => Some(Drawn::Sparse),
        _ => None,
    }
}
