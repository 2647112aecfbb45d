//! Tests of the calls on tables: worked values, a slow evaluation cell by cell, and the work that is done.
#![tactic(auto)]

#[cfg(test)]
mod calls;
#[cfg(test)]
mod kernel_tests;
#[cfg(test)]
mod layouts;
#[cfg(test)]
mod slow;
#[cfg(test)]
mod work_tests;
#[cfg(test)]
mod worked_tests;
