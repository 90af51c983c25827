ghost use Rattle.std.specs.Prelude.{◌≡◌, IfOk, OnErr};
ghost use Rattle.calls.specs.Metering.{Acted};
ghost use Rattle.calls.specs.Promise.{Metered};

use crate::call::{MeterCall, Reply};
use crate::making::make;
use ink::Ink;
use layers::Meter;
use player::Run;
use std::alloc::{AllocError, Global};
use surface::Surface;

// Makes one call over a meter, or clears it.
fn act<S: Surface, I: Ink>(meter: &mut Meter<S>, run: &mut Run<'_>, call: &MeterCall<I>) -> Reply
    ensures bytes { run.new.bytes.now ≡ run.old.bytes.now }
    ensures acted { Acted S.means S.rest I.shade run.old.bytes.now run.old.progress meter.old call.now result run.new.progress meter.new }
{
    match call {
        MeterCall::Call(call) => make(meter, run, call),
        MeterCall::Clear => {
            meter.clear();
            Reply::Cleared
        }
    }
}

// Makes a list of calls and clearings over a meter, and gives every one's reply, in order. Memory is reserved first, so that want of
// it changes nothing.
// It stands beside `perform`: a closure that makes the calls would hold run and surface, of which nothing is known after it, and a
// trait for both lists would be longer than the lines that they share.
pub fn perform_metered<S: Surface, I: Ink>(
    meter: &mut Meter<S>,
    run: &mut Run<'_>,
    calls: &[MeterCall<I>],
    heap: Global,
) -> Result<Vec<Reply>, AllocError>
    ensures bytes { run.new.bytes.now ≡ run.old.bytes.now }
    ensures performed { IfOk result (λ v. Metered S.means S.rest I.shade run.old.bytes.now calls.now run.old.progress meter.old.below meter.old.kept v.items run.new.progress meter.new.below meter.new.kept) }
    ensures untouched { OnErr result ((run.new.progress ≡ run.old.progress) × (meter.new ≡ meter.old)) }
{
    let mut replies = Vec::with_capacity(heap, calls.len())?;
    for call in calls {
        replies.push_reserved(act(meter, run, call));
    }
    Ok(replies)
}
