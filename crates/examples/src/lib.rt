// Worked examples, as theorems over the definitions that the contracts use and by the calls themselves.
#![tactic(auto)]

mod copying;
mod painting;
mod setting;
mod tracing;
mod worked;

pub use copying::{copy_left, copy_right};
pub use painting::{Painted, paint_block};
pub use setting::set_in_planes;
pub use tracing::{line_gently, line_with_ties};
pub use worked::{Worked, worked_examples};
