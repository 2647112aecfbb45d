//! A text that grows.

ghost use Rattle.std.specs.Prelude.{◌≡◌, ◌++◌, [], OnOk, OnErr};
ghost use Rattle.cla_spec.specs.Numbers.{decimal_of};

use cla_num::Memory;
use itoa::Buffer;
use std::alloc::Global;
use std::marker::Model;

/// A text that grows at its end. Contracts see its bytes.
#[derive(Drop)]
pub struct Text {
    bytes: Vec<u8>,
}

impl Model for Text {
    ghost use Rattle.std.specs.Prelude.{List, ℕ};

    ghost Value = { List ℕ };

    ghost view = { λ t. t.bytes.items };
}

impl Text {
    /// An empty text. It takes no memory.
    pub fn new(alloc: Global) -> Text
        ensures { result ≡ [] }
    {
        Text {
            bytes: Vec::new(alloc),
        }
    }

    /// Appends these bytes. Where memory is wanting, the text stays as it was.
    pub fn push(&mut self, bytes: &[u8]) -> Result<(), Memory>
        ensures appended { OnOk result (self.new ≡ self.old ++ bytes.now) }
        ensures same { OnErr result (self.new ≡ self.old) }
    {
        self.bytes.extend_from_slice(bytes)?;
        Ok(())
    }

    /// Appends the decimal text of an integer. Where memory is wanting, the text stays as it was.
    pub fn push_int(&mut self, v: i128) -> Result<(), Memory>
        ensures appended { OnOk result (self.new ≡ self.old ++ decimal_of v) }
        ensures same { OnErr result (self.new ≡ self.old) }
    {
        let mut digits = Buffer::new();
        self.push(digits.format(v).as_bytes())
    }

    /// Its bytes.
    pub fn bytes(&self) -> &[u8]
        ensures { result.now ≡ self.now }
    {
        &self.bytes
    }
}
