//! A script is read item by item.

ghost use Rattle.std.specs.Prelude.{◌≡◌, ◌≤◌, []};
ghost use Rattle.cla_num.specs.Bits.{IsSupported};
ghost use Rattle.cla_grammar.specs.Reader.{fresh, take_token, take_end, take_item};
ghost use Rattle.cla_tokens.specs.View.{token_of, item_of};
ghost use Rattle.cla_script.specs.Takes.{state_of};
ghost use Rattle.cla_script.specs.Reads.{reading_of, Reads};

use crate::builder::Builder;
use crate::expr::Statement;
use crate::fault::ScriptFault;
use crate::refusal::Refusal;
use cla_grammar::{Place, ScriptKind};
use cla_num::Number;
use cla_tokens::{Item, Token};
use std::alloc::Global;

// A statement has at most so many tokens.
const MOST_TOKENS: u32 = 256;

/// The statements that were read, and the one that is open, with the number of its tokens.
#[derive(Drop)]
pub struct Reader<N> {
    pub count: u32,
    pub builder: Builder<N>,
    pub statements: Vec<Statement<N>>,
}

impl<N: Number + Drop> Reader<N> {
    /// No item yet. It takes no memory.
    pub fn new(alloc: Global) -> Reader<N>
        ensures { reading_of N.value result ≡ fresh [] }
    {
        Reader {
            count: 0,
            builder: Builder::new(alloc),
            statements: Vec::new(alloc),
        }
    }

    fn token(self, alloc: Global, token: Token) -> Result<Reader<N>, ScriptFault>
        requires { IsSupported N.BITS }
        ensures { Reads N.value result (take_token N.BITS (reading_of N.value self) (token_of token.entry)) }
    {
        let place = token.place;
        if MOST_TOKENS <= self.count {
            return Err(ScriptFault::at(place, ScriptKind::Long));
        }
        let Reader {
            count,
            builder,
            statements,
        } = self;
        match builder.take(alloc, token) {
            Ok(builder) => Ok(Reader {
                count: count + 1,
                builder,
                statements,
            }),
            Err(Refusal::Memory) => Err(ScriptFault::Memory),
            Err(Refusal::Kind(kind)) => Err(ScriptFault::At { place, kind }),
        }
    }

    fn end(self, alloc: Global, place: Place) -> Result<Reader<N>, ScriptFault>
        ensures { Reads N.value result (take_end (reading_of N.value self) place) }
    {
        let Reader {
            count,
            builder,
            statements,
        } = self;
        if count == 0 {
            return Ok(Reader {
                count: 0,
                builder: Builder::new(alloc),
                statements,
            });
        }
        if builder.waits() {
            return Err(ScriptFault::at(place, ScriptKind::Exponent));
        }
        match builder.finish(alloc) {
            Ok(statement) => {
                let mut statements = statements;
                statements.push(statement)?;
                Ok(Reader {
                    count: 0,
                    builder: Builder::new(alloc),
                    statements,
                })
            }
            Err(Refusal::Memory) => Err(ScriptFault::Memory),
            Err(Refusal::Kind(kind)) => Err(ScriptFault::At { place, kind }),
        }
    }

    /// The next item of the script.
    pub fn take(self, alloc: Global, item: Item) -> Result<Reader<N>, ScriptFault>
        requires { IsSupported N.BITS }
        ensures { Reads N.value result (take_item N.BITS (reading_of N.value self) (item_of item.entry)) }
    {
        match item {
            Item::Token(token) => self.token(alloc, token),
            Item::End(place) => self.end(alloc, place),
            Item::BadByte(place) => Err(ScriptFault::at(place, ScriptKind::Char)),
            Item::BadText(place) => Err(ScriptFault::at(place, ScriptKind::Text)),
        }
    }
}
