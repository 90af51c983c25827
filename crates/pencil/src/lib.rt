// What drawing is done with: pens, brushes, and the pencil that holds one of each with a clip, a line mode and a back colour.
#![tactic(auto)]

mod brush;
mod narrowing;
mod pen;
mod pencil_state;

pub use brush::{Brush, BrushInk};
pub use narrowing::Narrowing;
pub use pen::Pen;
pub use pencil_state::Pencil;
