ghost use Rattle.std.specs.Prelude.{Some};
ghost use Rattle.player.specs.Texts.{counts_text};

use playback::DeviceContext;
use std::fmt;

// How the records of a run were answered.
#[derive(Clone, Copy, PartialEq, Eq, Debug)]
pub struct Counts {
    pub taken: usize,
    pub refused: usize,
    pub passed_over: usize,
}

impl fmt::Display for Counts {
    ghost output = { λ counts. Some (counts_text counts) };

    fn fmt<W: fmt::Write>(&self, f: &mut fmt::Formatter<W>) -> fmt::Result {
        let Counts {
            taken,
            refused,
            passed_over,
        } = self;
        write!(
            f,
            "taken {taken}, refused {refused}, passed over {passed_over}"
        )
    }
}

#[derive(Clone, Copy, PartialEq, Eq, Debug)]
pub enum Phase {
    Playing,
    Ended,
}

// Where a run stands: at the record at `place`, or at its end.
#[derive(Clone, Copy)]
pub struct Progress {
    pub place: usize,
    pub phase: Phase,
    pub counts: Counts,
    pub context: DeviceContext,
}
