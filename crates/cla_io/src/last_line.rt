//! The line that an input took last.

/// Where the line that was taken last stands: in the buffer from `start` to `end`, or apart from it.
#[derive(Drop)]
pub(crate) enum LastLine {
    Held { start: usize, end: usize },
    Apart { bytes: Vec<u8> },
}
