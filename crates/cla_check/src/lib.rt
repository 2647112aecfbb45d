//! Shapes of scripts: whether each expression has one, or the first fault.
#![tactic(auto)]

mod checked;
mod checking;
mod expressions;
mod fault;
mod names;
mod operators;
mod scope;
mod shape;

pub use checked::Checked;
pub use checking::check;
pub use fault::{ShapeFault, ShapeKind};
pub use shape::Shape;
