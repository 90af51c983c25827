ghost use Rattle.std.specs.Prelude.{◌≡◌};
ghost use Rattle.capi.specs.Reports.{bare, of_file, of_record, of_step, unplayed};

use codes::Refusal;
use metafile::FileFault;
use player::{RecordFault, StepFault};

// A refusal for C: its number, or 0 where there is none; its layer, 0 for none, 1 for the file and 2 for a record; and its place.
// Numbers and not enums: C reads the fields.
#[repr(C)]
#[derive(Clone, Copy)]
pub struct Fault {
    pub number: u32,
    pub layer: u32,
    pub place: u64,
}

// What a call for C tells: the fault that stopped it, the first record refused, and how the records were answered.
#[repr(C)]
#[derive(Clone, Copy)]
pub struct Report {
    pub stop: Fault,
    pub first: Fault,
    pub taken: u64,
    pub refused: u64,
    pub passed_over: u64,
}

impl Fault {
    pub(crate) const NONE: Fault = Fault {
        number: 0,
        layer: 0,
        place: 0,
    };
}

// A cause with neither place nor layer. Each fault becomes a `Fault` by itself: its type tells the layer. Places go by `as`, since a `u64`
// has no From<usize>.
impl From<Refusal> for Fault {
    ghost from_gives = { λ c f. f ≡ bare c };

    fn from(cause: Refusal) -> Fault {
        Fault {
            number: u32::from(cause.number()),
            layer: 0,
            place: 0,
        }
    }
}

impl From<FileFault> for Fault {
    ghost from_gives = { λ e f. f ≡ of_file e };

    fn from(fault: FileFault) -> Fault {
        Fault {
            number: u32::from(fault.number()),
            layer: 1,
            place: fault.place as u64,
        }
    }
}

impl From<RecordFault> for Fault {
    ghost from_gives = { λ e f. f ≡ of_record e };

    fn from(fault: RecordFault) -> Fault {
        Fault {
            number: u32::from(fault.cause.number()),
            layer: 2,
            place: fault.place as u64,
        }
    }
}

impl From<StepFault> for Fault {
    ghost from_gives = { λ e f. f ≡ of_step e };

    fn from(fault: StepFault) -> Fault {
        match fault {
            StepFault::File(fault) => fault.into(),
            StepFault::Record(fault) => fault.into(),
        }
    }
}

impl Report {
    // The report of what was not played.
    pub(crate) fn unplayed(stop: Fault) -> Report
        ensures { result ≡ unplayed stop }
    {
        Report {
            stop,
            first: Fault::NONE,
            taken: 0,
            refused: 0,
            passed_over: 0,
        }
    }

    // Gives C the report, and answers its number: 0, or that of what stopped it.
    pub fn tell(self, report: &mut Report) -> u32
        ensures report { report.new ≡ self }
        ensures number { result ≡ report.new.stop.number }
    {
        *report = self;
        report.stop.number
    }
}
