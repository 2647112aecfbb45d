//! How long calls take.

use crate::stop::Stop;
use std::rt::Clock;
use std::time::Instant;

/// So many nanoseconds are enough for all rounds of a call.
const ENOUGH: u64 = 200_000_000;

/// The best time of a call, that of all its rounds, and the check sum of what it made.
#[derive(Clone, Copy)]
pub struct Measured {
    pub nanoseconds: u64,
    pub spent: u64,
    pub sum: u64,
}

impl Measured {
    /// No round yet.
    pub fn new() -> Measured {
        Measured {
            nanoseconds: u64::MAX,
            spent: 0,
            sum: 0,
        }
    }

    /// One more round, which began at `start` and ends now.
    pub fn end_round(&mut self, clock: &impl Clock, start: Instant) -> Result<(), Stop> {
        let nanoseconds = u64::try_from(start.elapsed(clock)?.as_nanos()).unwrap_or(u64::MAX);
        self.nanoseconds = self.nanoseconds.min(nanoseconds);
        self.spent = self.spent.saturating_add(nanoseconds);
        Ok(())
    }

    /// Whether the rounds took long enough.
    pub fn is_enough(&self) -> bool {
        self.spent >= ENOUGH
    }

    /// Prints the check sum, and on standard error the time and the time a row in thousandths of a nanosecond.
    pub fn print(&self, rt: &(impl Print + Eprint), name: &str, rows: u32) -> Result<(), Stop> {
        let a_row = (self.nanoseconds as u128 * 1000)
            .checked_div(rows as u128)
            .unwrap_or(0);
        println!(rt; "{name} {}", self.sum)?;
        eprintln!(rt;
            "{name} {} {}.{:03}",
            self.nanoseconds,
            a_row / 1000,
            a_row % 1000
        )?;
        Ok(())
    }
}
