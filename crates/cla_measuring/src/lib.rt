//! What programs that measure calls share: codes that look like chance, check sums, and the best of some rounds.
#![tactic(auto)]

mod check_sum;
mod draw;
mod measured;
mod stop;

pub use check_sum::{CheckSum, sum_of_codes, sum_of_numbers, sum_of_values, sum_of_wides};
pub use draw::Draw;
pub use measured::Measured;
pub use stop::Stop;
