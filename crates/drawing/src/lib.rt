// Drawing on any surface: what the drawing calls come to, and painting.
#![tactic(auto)]

mod filling;
mod painting;
mod part;
mod shape;
mod visibility;

pub use painting::{blend, paint, paint_within};
pub use shape::{Area, Point};
pub use visibility::visible;
