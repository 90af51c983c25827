// Surfaces over a caller's memory.
#![tactic(auto)]

mod bits;
mod bytes;
mod cells;
mod laws;
mod layout;
mod packed;
mod planes;
mod raster;
mod size;

pub use bytes::{Bytes, OneByte};
pub use laws::memory_laws;
pub use layout::Layout;
pub use packed::{OneBit, Packed};
pub use planes::{FourPlanes, Planes};
pub use raster::Raster;
pub use size::Size;
