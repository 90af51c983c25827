ghost use Rattle.std.specs.Prelude.{◌≡◌, IfOk, OnErr};
ghost use Rattle.laws.specs.Runs.{Tallies, Answers, Starts, Stays, Ends, OneOutcome, Performed};

use metafile::Checked;
use player::{Counts, Step, play, start};
use std::alloc::{AllocError, Global};
use surface::Surface;

// Of whole runs: the counts are the tally of the answers; each answer is told by what lies at its place; and a run that has
// ended changes no more. A step always has one outcome.
pub fn run_laws()
    ensures tallies { Tallies }
    ensures answers { Answers }
    ensures starts { Starts }
    ensures stays { Stays }
    ensures ends { Ends }
    ensures outcome { OneOutcome }
{}

// Plays a checked file until it has ended or no record lies at its place: the steps, and the counts. Want of memory changes nothing.
pub fn play_file<S: Surface>(
    checked: Checked<'_>,
    surface: &mut S,
    heap: Global,
) -> Result<(Vec<Step>, Counts), AllocError>
    ensures performed { IfOk result (λ p. Performed S.means S.keeps S.rest checked.entry.bytes.now checked.entry.first checked.entry.objects surface.old p.0.items p.1 surface.new) }
    ensures untouched { OnErr result (surface.new ≡ surface.old) }
{
    let mut run = start(checked);
    let steps = play(&mut run, surface, heap)?;
    Ok((steps, run.finish()))
}
