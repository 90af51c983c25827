// Layers: surfaces that stand on a surface.
#![tactic(auto)]

mod fence;
mod inside;
mod laws;
mod meter;
mod mirror;
mod span;

pub use fence::Fence;
pub use inside::fill_inside;
pub use laws::{bounds_are_unique, fence_passes_down, mirror_passes_down, mirror_undoes_mirror};
pub use meter::Meter;
pub use mirror::Mirror;
