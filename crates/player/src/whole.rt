ghost use Rattle.std.specs.Prelude.{◌≡◌, IfOk, OnErr};
ghost use Rattle.player.specs.Playing.{final, PlayedOut};

use crate::fault::StepFault;
use crate::run::Run;
use playback::Answer;
use std::alloc::{AllocError, Global};
use surface::Surface;

// One step of a run: the place where it was made, and its answer.
#[derive(Clone, Copy)]
pub struct Step {
    pub place: usize,
    pub answer: Result<Answer, StepFault>,
}

// Whether no record can follow an answer: the run has ended, or no record lies at its place.
pub fn is_final(answer: Result<Answer, StepFault>) -> bool
    ensures { result ≡ final answer }
{
    matches!(answer, Ok(Answer::Ended) | Err(StepFault::File(_)))
}

// Steps until the run has ended or a file fault comes. Memory is reserved first, so that want of it changes nothing.
// No closure takes the steps, so that one function serves a listener too: the room that `push_reserved` needs is there at each step
// to come, and not at every call. What want of memory leaves is said by each call, as its bytes are.
pub fn play<S: Surface>(
    run: &mut Run<'_>,
    surface: &mut S,
    heap: Global,
) -> Result<Vec<Step>, AllocError>
    ensures bytes { run.new.bytes.now ≡ run.old.bytes.now }
    ensures played { IfOk result (λ v. PlayedOut S.means S.keeps S.rest run.old.bytes.now run.old.progress surface.old v.items run.new.progress surface.new) }
    ensures untouched { OnErr result ((run.new.progress ≡ run.old.progress) × (surface.new ≡ surface.old)) }
{
    let left = run.bytes.len().saturating_sub(run.progress.place);
    let mut steps = Vec::with_capacity(heap, left / 6 + 1)?;
    'records: loop {
        let place = run.progress.place;
        let answer = run.step(surface);
        steps.push_reserved(Step { place, answer });
        if is_final(answer) {
            break;
        }
    }
    Ok(steps)
}
