ghost use Rattle.std.specs.Prelude.{◌≡◌, map, IfOk, OnErr};
ghost use Rattle.calls.specs.Machine.{Exactly};
ghost use Rattle.calls.specs.Promise.{Performed};
ghost use Rattle.calls.specs.declared.call.MeterCall.TheVariants.{Call as plain};

use crate::call::{Call, Reply};
use crate::making::make;
use ink::Ink;
use player::Run;
use std::alloc::{AllocError, Global};
use surface::Surface;

// Makes a list of calls, and gives every call's reply, in order. Memory is reserved first, so that want of it changes nothing.
pub fn perform<S: Surface, I: Ink>(
    surface: &mut S,
    run: &mut Run<'_>,
    calls: &[Call<I>],
    heap: Global,
) -> Result<Vec<Reply>, AllocError>
    ensures bytes { run.new.bytes.now ≡ run.old.bytes.now }
    ensures performed { IfOk result (λ v. Performed S.means S.keeps S.rest I.shade run.old.bytes.now (map plain calls.now) run.old.progress surface.old v.items run.new.progress surface.new) }
    ensures untouched { OnErr result ((run.new.progress ≡ run.old.progress) × (surface.new ≡ surface.old)) }
{
    let mut replies = Vec::with_capacity(heap, calls.len())?;
    for call in calls {
        replies.push_reserved(make(surface, run, call));
    }
    Ok(replies)
}

// The machine that the promises speak of has exactly one outcome for every list of calls, with any ink.
pub fn machine_is_exact<I: Ink>()
    ensures { Exactly I.shade }
{}
