// Inks: a word for every cell.
#![tactic(auto)]

mod hatch;
mod shade;

pub use hatch::{Hatch, HatchStyle};
pub use shade::{Ink, Solid};
