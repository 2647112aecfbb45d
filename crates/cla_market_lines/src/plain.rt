//! Plain lines, which are read in one pass: words of digits, parted by one blank each, the last with a minus
//! or without, and then LF. Every other line is left to the general rules.

ghost use Rattle.std.specs.Prelude.{◌≡◌, ◌∷◌, [], pos, Ok, IfSome};
ghost use Rattle.cla_market_lines.specs.Plain.{WordThen, DigitsThen, IsPlain, signed};

// The value of the digits before the byte `stop`, which is no digit, and what stands behind it.
// `None` says nothing.
#[inline(always)]
fn digits_then(bytes: &[u8], stop: u8) -> Option<(u64, &[u8])>
    ensures { IfSome result (λ r. DigitsThen stop bytes.now r.0 r.1.now) }
{
    let mut size = 0u64;
    for i in 0..bytes.len() {
        let byte = bytes[i];
        if !byte.is_ascii_digit() {
            if byte == stop && i > 0 {
                return Some((size, &bytes[i + 1..]));
            }
            return None;
        }
        let tens = size.checked_mul(10)?;
        size = tens.checked_add(u64::from(byte - b'0'))?;
    }
    None
}

// The same, with a minus or without.
#[inline(always)]
fn number_then(bytes: &[u8], stop: u8) -> Option<(bool, u64, &[u8])>
    ensures { IfSome result (λ r. WordThen stop bytes.now (signed r.0 r.1) r.2.now) }
{
    if bytes.len() > 0 && bytes[0] == b'-' {
        let (size, rest) = digits_then(&bytes[1..], stop)?;
        Some((true, size, rest))
    } else {
        let (size, rest) = digits_then(bytes, stop)?;
        Some((false, size, rest))
    }
}

/// The value of a line of one number, and where its LF stands. `None` says nothing.
#[inline(always)]
pub fn one_number(bytes: &[u8]) -> Option<(bool, u64, usize)>
    ensures { IfSome result (λ r. IsPlain bytes.now (Ok (signed r.0 r.1) ∷ []) r.2) }
{
    let (minus, size, rest) = number_then(bytes, b'\n')?;
    Some((minus, size, bytes.len() - rest.len() - 1))
}

/// The values of a line of three numbers, and where its LF stands. `None` says nothing.
#[inline(always)]
pub fn three_numbers(bytes: &[u8]) -> Option<(u64, u64, bool, u64, usize)>
    ensures { IfSome result (λ r. IsPlain bytes.now (Ok (pos r.0) ∷ Ok (pos r.1) ∷ Ok (signed r.2 r.3) ∷ []) r.4) }
{
    let (row, more) = digits_then(bytes, b' ')?;
    let (col, last) = digits_then(more, b' ')?;
    let (minus, size, rest) = number_then(last, b'\n')?;
    Some((row, col, minus, size, bytes.len() - rest.len() - 1))
}
