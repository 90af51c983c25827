// The player for C: checking a file, and playing it on a picture in the caller's memory, with a report of plain numbers.
#![tactic(auto)]

mod listening;
mod playing;
mod report;

pub use listening::{Heard, play_listening};
pub use playing::{check_file, play_file};
pub use report::{Fault, Report};
