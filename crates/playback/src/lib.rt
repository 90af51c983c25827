// What a run's records change, and what each does: the playback device context.
#![tactic(auto)]

mod answer;
mod context;
mod objects;
mod playing;

pub use answer::Answer;
pub use context::{DeviceContext, Origins};
pub use objects::{Object, ObjectTable};
