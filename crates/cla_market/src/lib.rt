//! What a Matrix Market text spells, line by line: the definitions that its reader and writer cite, by
//! the NIST Matrix Market exchange format.
#![tactic(auto)]

ghost use Rattle.cla_market.specs.Texts.{WrittenTextsSpell};

mod banner;
mod fault;
mod size;

pub use banner::{Banner, Field, Format, Symmetry};
pub use fault::{LineFault, MtxFault};
pub use size::Size;

/// The text that is written for a matrix spells it.
pub fn written_texts_spell()
    ensures { WrittenTextsSpell }
{}
