//! Codes that take one byte each, two or four, the least byte first.

ghost use Rattle.std.specs.Prelude.{◌≡◌, ◌<◌, ◌≤◌, ◌+◌, ◌*◌, ◌^◌, ◌++◌, ℕ, length, true, IfOk};
ghost use Rattle.cla_spec.specs.Matrix.{most_cells};
ghost use Rattle.cla_layout.specs.Groups.{code_of};
ghost use Rattle.cla_codes.specs.Widths.{is_code_width};
ghost use Rattle.cla_codes.specs.Bytes.{number_at, bytes_of, AreWritten};

use cla_num::Memory;
use std::alloc::Global;

// Spells out, for each width, the division by which each byte of a code is found.
macro_rules! push_by_width {
    ($w:expr, $code:expr, $bytes:expr; $($width:literal => [$([$($by:literal)*])*]),*) => {
        match $w {
            $($width => {
                $($bytes.push(($code $(/ $by)* % 256) as u8)?;)*
            })*
            _ => unreachable!(),
        }
    };
}

// Spells out, for each width, the weight of each byte of a code.
macro_rules! read_by_width {
    ($w:expr, $bytes:expr, $at:expr; $($width:literal => [$($place:literal * $weight:literal),*]),*) => {
        match $w {
            $($width => 0 $(+ $weight * $bytes[$at + $place] as u32)*,)*
            _ => unreachable!(),
        }
    };
}

// Appends the bytes of a code.
fn push_code<const W: usize>(code: u32, bytes: &mut Vec<u8>) -> Result<(), Memory>
    requires width { is_code_width W ≡ true }
    ensures { IfOk result (λ _. bytes.new.items ≡ bytes.old.items ++ bytes_of W code) }
{
    push_by_width!(W, code, bytes; 1 => [[]], 2 => [[] [256]], 4 => [[] [256] [256 256] [256 256 256]]);
    Ok(())
}

/// The codes in W bytes each.
pub(crate) fn write_codes<const W: usize>(alloc: Global, codes: &[u32]) -> Result<Vec<u8>, Memory>
    requires width { is_code_width W ≡ true }
    requires fits { (i : ℕ) → i < length codes.now → code_of codes.now i < 256 ^ W }
    requires few { length codes.now ≤ most_cells }
    ensures { IfOk result (λ bytes. AreWritten W (length codes.now) codes.now bytes.items) }
{
    let mut bytes = Vec::with_capacity(alloc, codes.len() * W)?;
    for i in 0..codes.len() {
        push_code::<W>(codes[i], &mut bytes)?;
    }
    Ok(bytes)
}

/// The code of row i.
#[inline(always)]
pub(crate) fn read_code<const W: usize>(bytes: &[u8], i: u32) -> u32
    requires width { is_code_width W ≡ true }
    requires within { i * W + W ≤ length bytes.now }
    ensures { result ≡ number_at W bytes.now (i * W) }
{
    let at = i as usize * W;
    read_by_width!(W, bytes, at; 1 => [0 * 1], 2 => [0 * 1, 1 * 256], 4 => [0 * 1, 1 * 256, 2 * 65536, 3 * 16777216])
}
