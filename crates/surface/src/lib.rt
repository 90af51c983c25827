// What a surface is: a size, a depth, a picture and a set of open cells.
#![tactic(auto)]

mod lent;
mod rect;
mod sameness;
mod surface;

pub use rect::Rect;
pub use sameness::same;
pub use surface::Surface;
