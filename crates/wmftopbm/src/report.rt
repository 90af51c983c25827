use metafile::{Checked, Layer, frame_at, record_name};
use playback::Answer;
use player::{Counts, Step, StepFault};
use std::io;

pub(crate) const USAGE: &str = "usage: wmftopbm [--trace] < FILE.wmf > FILE.pbm

Plays a Windows metafile on a one-bit picture of 576 x 400 cells
and writes the picture as a PBM.

  --trace  a line for each step on standard error: BYTE NAME ANSWER
  --help   this text

Exit status: 0 the picture was written, 1 it was not.";

// So many refused records are told one by one.
const TOLD: usize = 20;

// Tells on standard error what happened; with `trace`, step by step.
pub(crate) fn tell(
    rt: &HostRuntime,
    checked: Checked<'_>,
    steps: &[Step],
    counts: Counts,
    trace: bool,
) -> io::Result<()> {
    if trace {
        for step in steps {
            trace_step(rt, checked, *step)?;
        }
    }
    tell_refused(rt, steps)?;
    if counts.refused > TOLD {
        eprintln!(rt; "and {} more refused", counts.refused - TOLD)?;
    }
    tell_stop(rt, steps)?;
    eprintln!(rt; "{counts}")
}

// The line of a step: BYTE NAME ANSWER.
fn trace_step(rt: &HostRuntime, checked: Checked<'_>, step: Step) -> io::Result<()> {
    let place = step.place;
    match frame_at(checked.bytes(), place) {
        Err(_) => eprint!(rt; "{place} - ")?,
        Ok(frame) => match record_name(frame.function) {
            Some(name) => eprint!(rt; "{place} {name} ")?,
            None => eprint!(rt; "{place} 0x{:04X} ", frame.function)?,
        },
    }
    match step.answer {
        Ok(Answer::Taken) => eprintln!(rt; "taken"),
        Ok(Answer::PassedOver) => eprintln!(rt; "passed over"),
        Ok(Answer::Ended) => eprintln!(rt; "ended"),
        Err(fault) => eprintln!(rt; "refused {} {}", fault.number(), fault.layer()),
    }
}

// A line for each of the first refused records.
fn tell_refused(rt: &HostRuntime, steps: &[Step]) -> io::Result<()> {
    let faults = steps
        .iter()
        .filter_map(|step| step.answer.err())
        .filter(|fault| fault.layer() == Layer::Record);
    for fault in faults.take(TOLD) {
        eprintln!(rt; "refused {fault}")?;
    }
    Ok(())
}

// A line for the file fault that ended the playing, if one did.
fn tell_stop(rt: &HostRuntime, steps: &[Step]) -> io::Result<()> {
    if let Some(Err(fault @ StepFault::File(_))) = steps.last().map(|last| last.answer) {
        eprintln!(rt; "stopped: {fault}")?;
    }
    Ok(())
}
