// Any list of calls on any surface, and the promise that no bit plane touches another.
#![tactic(auto)]

mod call;
mod making;
mod metering;
mod performing;
mod whole;

pub use call::{Call, MeterCall, Reply};
pub use metering::perform_metered;
pub use performing::{machine_is_exact, perform};
pub use whole::play_whole;
