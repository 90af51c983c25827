ghost use Rattle.std.specs.Prelude.{◌≡◌};
ghost use Rattle.calls.specs.Machine.{Made};

use crate::call::{Call, Reply};
use copies::copy;
use drawing::paint;
use ink::Ink;
use lines::line;
use player::Run;
use surface::Surface;

// Makes one call.
pub(crate) fn make<S: Surface, I: Ink>(surface: &mut S, run: &mut Run<'_>, call: &Call<I>) -> Reply
    ensures bytes { run.new.bytes.now ≡ run.old.bytes.now }
    ensures made { Made S.means S.keeps S.rest I.shade run.old.bytes.now run.old.progress surface.old call.now result run.new.progress surface.new }
{
    match call {
        Call::Step => Reply::Step(run.step(surface)),
        Call::Line { pencil, from, to } => Reply::Drawing(line(surface, pencil, *from, *to)),
        Call::Paint {
            pencil,
            area,
            code,
            ink,
        } => Reply::Drawing(paint(surface, pencil, *area, *code, ink)),
        Call::Copy {
            pencil,
            area,
            source,
            code,
            ink,
        } => Reply::Drawing(copy(surface, pencil, *area, *source, *code, ink)),
    }
}
