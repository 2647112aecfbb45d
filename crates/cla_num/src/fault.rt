//! What is wrong with the result of an operator, and want of memory.

use crate::wide::Wide;
use std::alloc::{AllocError, AllocFailed};

/// Want of memory.
#[derive(Clone, Copy, Debug, PartialEq, Eq)]
pub struct Memory;

impl From<AllocError> for Memory {
    fn from(_error: AllocError) -> Memory {
        Memory
    }
}

impl<T: Drop> From<AllocFailed<T>> for Memory {
    fn from(_error: AllocFailed<T>) -> Memory {
        Memory
    }
}

/// A division by zero.
#[derive(Clone, Copy, Debug, PartialEq, Eq)]
pub struct ZeroDivisor;

/// What is wrong with one cell of a result: its exact value isn't in range, or its divisor is 0.
#[derive(Clone, Copy, Debug, PartialEq, Eq)]
pub enum What {
    Range { value: Wide },
    Zero,
}

/// The first faulty cell of an operator's result, row by row. Rows and columns count from 1; `op` is
/// the operator's place in a chain of operators, from 0.
#[derive(Clone, Copy, Debug, PartialEq, Eq)]
pub struct OpFault {
    pub op: u32,
    pub row: u32,
    pub col: u32,
    pub what: What,
}

/// Why a kernel gives no result: an operator's fault, or want of memory.
#[derive(Clone, Copy, Debug, PartialEq, Eq)]
pub enum Refused {
    Op(OpFault),
    Memory,
}
