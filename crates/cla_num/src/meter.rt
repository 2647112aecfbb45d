//! The meter of counted operations.

ghost use Rattle.std.specs.Prelude.{◌≡◌, ◌+◌};
ghost use Rattle.cla_num.specs.Counts.{zero_counts, AreBelow, operation_bound};

use std::marker::Model;

/// How many multiplications and map evaluations were made. Contracts see both counts.
#[derive(Drop, Debug)]
pub struct Meter {
    mults: u128,
    maps: u128,
}

impl Model for Meter {
    ghost use Rattle.cla_num.specs.Counts.{Counts};

    ghost Value = { Counts };

    ghost view = { λ m. record { mults = m.mults; maps = m.maps } };
}

impl Meter {
    /// A meter at zero.
    pub fn new() -> Meter
        ensures { result ≡ zero_counts }
    {
        Meter { mults: 0, maps: 0 }
    }

    /// How many multiplications were made.
    pub fn mults(&self) -> u128
        ensures { result ≡ self.now.mults }
    {
        self.mults
    }

    /// How many map evaluations were made.
    pub fn maps(&self) -> u128
        ensures { result ≡ self.now.maps }
    {
        self.maps
    }

    // One more multiplication. `Number::times` alone calls this.
    pub(crate) fn count_mult(&mut self)
        requires { AreBelow operation_bound self.old }
        ensures { self.new ≡ record self.old { mults = self.old.mults + 1 } }
    {
        self.mults += 1;
    }

    // One more map evaluation. `Number::apply` alone calls this.
    pub(crate) fn count_map(&mut self)
        requires { AreBelow operation_bound self.old }
        ensures { self.new ≡ record self.old { maps = self.old.maps + 1 } }
    {
        self.maps += 1;
    }
}
