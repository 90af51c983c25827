// Lines on any surface.
#![tactic(auto)]

mod course;
mod segment;
mod tracing;

pub use tracing::{line, line_examples};
