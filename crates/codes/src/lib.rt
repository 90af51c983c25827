// The causes of refusal, and the words that ternary raster operations and line modes make bit by bit.
#![tactic(auto)]

mod mode;
mod mux;
mod operation;
mod refusal;
#[cfg(test)]
mod tests;

pub use mode::LineMode;
pub use operation::{combine, depends_on_picture, depends_on_source, operation_laws};
pub use refusal::Refusal;
