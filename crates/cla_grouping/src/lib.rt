//! The rule that groups columns: the tuples of columns, the bytes that they take in each kind, and which
//! of them are grouped. A law stands on a function with an empty body, whose contract it is.
#![tactic(auto)]

mod laws;
mod sizes;

pub use laws::{
    codes_are_numbered, codes_tell_tuples, cuts_part_columns, joins_agree, zeros_are_told,
};
pub use sizes::{
    Figures, KindBytes, best, codes_size, most_tuples, offsets_size, plain_size, runs_size,
};
