// Copying within a picture on any surface, with any ink.
#![tactic(auto)]

mod copying;
mod shift;
mod sweep;

pub use copying::copy;
