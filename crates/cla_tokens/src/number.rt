//! The value of digits.

ghost use Rattle.std.specs.Prelude.{◌≡◌, ◌≤◌, ◌<◌, ◌^◌, MatchOption};
ghost use Rattle.cla_tokens.specs.Values.{value};

/// The value of digits. `None` only where it is 2^48 or more.
pub fn digits_value(digits: &[u8]) -> Option<u64>
    ensures { MatchOption result (2 ^ 48 ≤ value digits.now) (λ v. (v ≡ value digits.now) × (v < 2 ^ 60)) }
{
    let mut held = 0u64;
    for digit in digits {
        if 1 << 48 <= held {
            return None;
        }
        held = 10 * held + u64::from(digit.saturating_sub(b'0'));
    }
    Some(held)
}
