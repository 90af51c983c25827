// What holds of every run of a metafile, however many steps it makes.
#![tactic(auto)]

mod performance;

pub use performance::{play_file, run_laws};
