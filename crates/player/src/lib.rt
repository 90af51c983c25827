// Playing a checked metafile on a surface, record by record or to its end.
#![tactic(auto)]

mod fault;
mod finding;
mod progress;
mod run;
mod stepping;
mod whole;

pub use fault::{RecordFault, StepFault};
pub use progress::{Counts, Phase, Progress};
pub use run::Run;
pub use stepping::start;
pub use whole::{Step, is_final, play};
