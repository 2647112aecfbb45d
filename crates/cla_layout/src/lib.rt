//! Groups of columns, and layouts of matrices in groups: what they are, and the laws of both. A law
//! stands on a function with an empty body, whose contract it is.
#![tactic(auto)]

mod group_laws;
mod kind;
mod laws;

pub use group_laws::{
    extremes_regroup, faults_regroup, first_places_regroup, sums_regroup, weighted_sums_regroup,
};
pub use kind::Kind;
pub use laws::{
    codes_count_tuples, extremes_by_parts, extremes_transpose, faults_by_parts, faults_transpose,
    first_places_by_parts, first_places_transpose, layouts_stand, layouts_stand_for_one,
    loose_stands, rows_sum_by_parts, sums_by_parts, sums_transpose, transposed_twice,
    values_are_few,
};
