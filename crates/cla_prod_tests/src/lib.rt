//! Tests of products: values from outside, and that calls succeed.
#![tactic(auto)]

#[cfg(test)]
mod generated;
#[cfg(test)]
mod generated_tests;
#[cfg(test)]
mod product_tests;
#[cfg(test)]
mod products;
#[cfg(test)]
mod tables;
#[cfg(test)]
mod work_tests;
