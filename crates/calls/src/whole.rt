ghost use Rattle.std.specs.Prelude.{◌≡◌, IfOk, OnErr};
ghost use Rattle.player.specs.Playing.{PlayedOut};
ghost use Rattle.calls.specs.Promise.{PlayedApart};

use player::{Run, Step, play};
use std::alloc::{AllocError, Global};
use surface::Surface;

// Steps until the run has ended or a file fault comes, and gives every step. Memory is reserved first, so that want of it changes
// nothing.
pub fn play_whole<S: Surface>(
    run: &mut Run<'_>,
    surface: &mut S,
    heap: Global,
) -> Result<Vec<Step>, AllocError>
    ensures bytes { run.new.bytes.now ≡ run.old.bytes.now }
    ensures played { IfOk result (λ v. PlayedOut S.means S.keeps S.rest run.old.bytes.now run.old.progress surface.old v.items run.new.progress surface.new) }
    ensures apart { IfOk result (λ v. PlayedApart run.old.bytes.now run.old.progress (S.means surface.old) v.items run.new.progress (S.means surface.new)) }
    ensures untouched { OnErr result ((run.new.progress ≡ run.old.progress) × (surface.new ≡ surface.old)) }
{
    play(run, surface, heap)
}
