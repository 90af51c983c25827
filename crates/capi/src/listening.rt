ghost use Rattle.std.specs.Prelude.{◌≡◌};
ghost use Rattle.std.specs.Option.{option_or};
ghost use Rattle.capi.specs.Listening.{record_fault, Listened};

use playback::Answer;
use player::{RecordFault, Run, StepFault, is_final};
use surface::Surface;

// What is heard of a run: its last answer, and the first record refused.
#[derive(Clone, Copy)]
pub struct Heard {
    pub last: Result<Answer, StepFault>,
    pub first: Option<RecordFault>,
}

// What was refused first, once an answer came.
fn noted(first: Option<RecordFault>, answer: Result<Answer, StepFault>) -> Option<RecordFault>
    ensures { result ≡ option_or first (record_fault answer) }
{
    let refused = match answer {
        Err(StepFault::Record(fault)) => Some(fault),
        _ => None,
    };
    first.or(refused)
}

// Steps until the run has ended or a file fault comes. Nothing allocates, and so this stands beside `player::play`.
pub fn play_listening<S: Surface>(run: &mut Run<'_>, surface: &mut S) -> Heard
    ensures bytes { run.new.bytes.now ≡ run.old.bytes.now }
    ensures heard { Listened S.means S.keeps S.rest run.old.bytes.now run.old.progress surface.old result run.new.progress surface.new }
{
    let mut first = None;
    'records: loop {
        let answer = run.step(surface);
        first = noted(first, answer);
        if is_final(answer) {
            return Heard {
                last: answer,
                first,
            };
        }
    }
}
