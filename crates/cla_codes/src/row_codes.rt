//! Codes of rows that come one after the other.

ghost use Rattle.std.specs.Prelude.{◌≡◌, ◌<◌, ◌^◌, ◌∷◌, ◌++◌, ◌/◌, ◌*◌, [], length, true, IfOk};
ghost use Rattle.cla_codes.specs.Widths.{is_code_width};
ghost use Rattle.cla_codes.specs.Bytes.{codes_in};

use cla_num::Memory;
use std::alloc::Global;
use std::marker::Model;

/// The codes of rows that come one after the other, in the bytes in which a group keeps them: each in
/// `width` of them, which is 1, 2 or 4, the least byte first.
#[derive(Drop)]
pub struct RowCodes {
    width: usize,
    bytes: Vec<u8>,
}

impl Model for RowCodes {
    ghost use Rattle.cla_codes.specs.Bytes.{RowCodesOf, row_codes, AreRowCodes};

    ghost Value = { RowCodesOf };

    ghost view = { λ r. row_codes r.width r.bytes.items };

    ghost invariant = { λ r. AreRowCodes r.width r.bytes.items };
}

impl RowCodes {
    /// No codes yet, which take `width` bytes each.
    pub fn new(alloc: Global, width: usize) -> RowCodes
        requires { is_code_width width ≡ true }
        ensures width { result.width ≡ width }
        ensures codes { result.codes ≡ [] }
    {
        RowCodes {
            width,
            bytes: Vec::new(alloc),
        }
    }

    /// How many bytes each code takes.
    pub fn width(&self) -> usize
        ensures is { result ≡ self.now.width }
        ensures width { is_code_width result ≡ true }
    {
        self.width
    }

    /// Appends the code of the next row, in amortized constant time.
    pub fn push(&mut self, code: u32) -> Result<(), Memory>
        requires fits { code < 256 ^ self.old.width }
        ensures width { self.new.width ≡ self.old.width }
        ensures codes { IfOk result (λ _. self.new.codes ≡ self.old.codes ++ code ∷ []) }
    {
        match self.width {
            1 => self.bytes.push(code as u8)?,
            2 => {
                let bytes = [(code % 256) as u8, (code / 256) as u8];
                self.bytes.extend_from_slice(&bytes)?;
            }
            _ => {
                let high = code / 65536;
                let bytes = [
                    (code % 256) as u8,
                    (code / 256 % 256) as u8,
                    (high % 256) as u8,
                    (high / 256) as u8,
                ];
                self.bytes.extend_from_slice(&bytes)?;
            }
        }
        Ok(())
    }

    /// The bytes of all codes, one row after the other.
    pub(crate) fn into_bytes(self) -> Vec<u8>
        ensures codes { codes_in self.width result.items (length result.items / self.width)
            ≡ self.codes }
        ensures whole { length result.items ≡ length result.items / self.width * self.width }
    {
        self.bytes
    }
}
