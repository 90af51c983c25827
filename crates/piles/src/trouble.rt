use std::alloc::AllocError;
use std::io;

// Why the comparison could not be made. From by hand: a derived one keeps the error in its case, and where this program fails it would
// print another line.
#[derive(Clone, Copy, Debug)]
pub(crate) enum Trouble {
    Memory,
    InOrOut,
    Refused,
}

impl From<io::Error> for Trouble {
    fn from(_error: io::Error) -> Trouble {
        Trouble::InOrOut
    }
}

impl From<AllocError> for Trouble {
    fn from(_error: AllocError) -> Trouble {
        Trouble::Memory
    }
}
