//! Check sums.

use cla_group::Group;
use cla_num::{Number, Wide};

/// A check sum over the decimal text of numbers, each with a separator (FNV-1a, in 64 bits).
#[derive(Clone, Copy)]
pub struct CheckSum {
    pub value: u64,
}

const BASIS: u64 = 0xcbf2_9ce4_8422_2325;

const PRIME: u64 = 0x0000_0100_0000_01b3;

impl CheckSum {
    /// The check sum of no numbers.
    pub fn new() -> CheckSum {
        CheckSum { value: BASIS }
    }

    fn add_byte(&mut self, byte: u8) {
        self.value = (self.value ^ u64::from(byte)).wrapping_mul(PRIME);
    }

    /// One more number.
    pub fn add(&mut self, number: Wide) {
        let mut text = [0; 40];
        let length = number.put(&mut text);
        for byte in &text[..length] {
            self.add_byte(*byte);
        }
        self.add_byte(b'\n');
    }

    /// The values of a group's tuples.
    pub fn add_values<N: Number, G: Group<N>>(&mut self, group: &G) {
        for k in 0..group.tuples() {
            for c in 0..group.width() {
                self.add(group.value(k, c).wide());
            }
        }
    }
}

/// The check sum of these numbers.
pub fn sum_of_wides(numbers: &[Wide]) -> u64 {
    let mut sum = CheckSum::new();
    for number in numbers {
        sum.add(*number);
    }
    sum.value
}

/// The check sum of these codes.
pub fn sum_of_codes(codes: &[u32]) -> u64 {
    let mut sum = CheckSum::new();
    for code in codes {
        sum.add(Wide::count(*code));
    }
    sum.value
}

/// The check sum of the values of a group's tuples.
pub fn sum_of_values<N: Number, G: Group<N>>(group: &G) -> u64 {
    let mut sum = CheckSum::new();
    sum.add_values(group);
    sum.value
}

/// The check sum of these numbers.
pub fn sum_of_numbers<N: Number>(numbers: &[N]) -> u64 {
    let mut sum = CheckSum::new();
    for number in numbers {
        sum.add(number.wide());
    }
    sum.value
}
