use crate::report::USAGE;
use player::StepFault;
use std::alloc::AllocError;
use std::io;
use thiserror::Error;

// Why no picture was written, in the words that standard error gets.
#[derive(Debug, Drop, Error)]
pub(crate) enum Failure {
    #[error("wmftopbm: unknown argument\n{}", USAGE)]
    Usage,
    #[error("refused {0}")]
    Refused(#[from] StepFault),
    #[error("wmftopbm: out of memory")]
    Memory(#[from] AllocError),
    #[error("wmftopbm: reading or writing failed")]
    InOrOut,
}

// By hand: a derived one keeps the error in its case, and with it what is assumed of the texts that the system has for errors.
impl From<io::Error> for Failure {
    fn from(_error: io::Error) -> Failure {
        Failure::InOrOut
    }
}
