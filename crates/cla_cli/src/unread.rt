//! Why a needed file isn't read.

/// A needed file isn't read: it is absent, it can't be read, memory is wanting, or what it holds is
/// refused.
#[derive(Debug, Drop)]
pub(crate) enum Unread<R> {
    Missing,
    Fault,
    Memory,
    Refused(R),
}

/// A script is longer than its limit.
#[derive(Clone, Copy, Debug)]
pub(crate) struct TooLong;
