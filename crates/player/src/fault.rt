ghost use Rattle.std.specs.Prelude.{◌≡◌, Some};
ghost use Rattle.codes.specs.Refusals.{numbered};
ghost use Rattle.player.specs.Faults.{cause_of, place_of, layer_of};
ghost use Rattle.player.specs.Texts.{fault_text};
ghost use Rattle.player.specs.declared.fault.StepFault.TheVariants.{File, Record};

use codes::Refusal;
use metafile::{FileFault, Layer};
use std::fmt;

// Why the record at a place is refused. `FileFault` has the same fields: the type tells the layer, and `From` needs both.
#[derive(Clone, Copy, PartialEq, Eq, Debug)]
pub struct RecordFault {
    pub cause: Refusal,
    pub place: usize,
}

// Why a step is refused: a fault of the file, carried whole, or of a record.
#[derive(Clone, Copy, PartialEq, Eq, Debug)]
pub enum StepFault {
    File(FileFault),
    Record(RecordFault),
}

impl From<FileFault> for StepFault {
    ghost from_gives = { λ f s. s ≡ File f };

    fn from(fault: FileFault) -> StepFault {
        Self::File(fault)
    }
}

impl From<RecordFault> for StepFault {
    ghost from_gives = { λ f s. s ≡ Record f };

    fn from(fault: RecordFault) -> StepFault {
        Self::Record(fault)
    }
}

impl StepFault {
    pub fn cause(self) -> Refusal
        ensures { result ≡ cause_of self }
    {
        match self {
            StepFault::File(fault) => fault.cause,
            StepFault::Record(fault) => fault.cause,
        }
    }

    // The number of its cause.
    pub fn number(self) -> u8
        ensures { result ≡ numbered (cause_of self) }
    {
        self.cause().number()
    }

    // The offset of the record.
    pub fn place(self) -> usize
        ensures { result ≡ place_of self }
    {
        match self {
            StepFault::File(fault) => fault.place,
            StepFault::Record(fault) => fault.place,
        }
    }

    pub fn layer(self) -> Layer
        ensures { result ≡ layer_of self }
    {
        match self {
            StepFault::File(_) => Layer::File,
            StepFault::Record(_) => Layer::Record,
        }
    }
}

// NUMBER at byte PLACE (LAYER): CAUSE. By hand, since a derived Display states no text.
impl fmt::Display for StepFault {
    ghost output = { λ fault. Some (fault_text fault) };

    fn fmt<W: fmt::Write>(&self, f: &mut fmt::Formatter<W>) -> fmt::Result {
        let number = self.number();
        let place = self.place();
        let layer = self.layer();
        let cause = self.cause();
        write!(f, "{number} at byte {place} ({layer}): {cause}")
    }
}
