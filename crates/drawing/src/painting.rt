ghost use Rattle.std.specs.Prelude.{◌≡◌};
ghost use Rattle.pencil.specs.Pencils.{with_clip};
ghost use Rattle.surface.specs.Rects.{overlap};
ghost use Rattle.drawing.specs.Tasks.{Performs, blend_task, paint_task};

use crate::filling::Operation;
use crate::part::Part;
use crate::shape::Area;
use crate::visibility::visible;
use codes::{Refusal, depends_on_source};
use ink::{Ink, Solid};
use pencil::{Narrowing, Pencil};
use surface::{Rect, Surface};

// Gives an area, inside a pencil's clip, the words of a raster operation of two inks and the picture. A drawing call takes area, code and
// inks one by one, as its callers have them: a struct would be made at each call and taken apart in it.
pub fn blend<S: Surface, P: Ink, Q: Ink>(
    surface: &mut S,
    pencil: &Pencil,
    area: Area,
    code: u8,
    pattern: &P,
    source: &Q,
) -> Result<(), Refusal>
    ensures { Performs S.means S.keeps S.rest
        (blend_task pencil.now area code (P.shade pattern.now) (Q.shade source.now)) result
        surface.old surface.new }
{
    if !area.in_range() {
        return Err(Refusal::Range);
    }
    let rect = visible(area, pencil.clip, surface.width(), surface.height());
    let operation = Operation {
        code,
        pattern,
        source,
    };
    operation.blend(surface, &Part { rect });
    Ok(())
}

// Paints an area, inside a pencil's clip, by a raster operation that does not depend on a source.
pub fn paint<S: Surface, I: Ink>(
    surface: &mut S,
    pencil: &Pencil,
    area: Area,
    code: u8,
    ink: &I,
) -> Result<(), Refusal>
    ensures { Performs S.means S.keeps S.rest (paint_task pencil.now area code (I.shade ink.now)) result
        surface.old surface.new }
{
    if depends_on_source(code) {
        return Err(Refusal::Operation);
    }
    blend(surface, pencil, area, code, ink, &Solid(0))
}

// Paints an area inside the part of a pencil's clip that lies in a rectangle, and leaves the pencil as it was.
pub fn paint_within<S: Surface, I: Ink>(
    surface: &mut S,
    pencil: &mut Pencil,
    rect: Rect,
    area: Area,
    code: u8,
    ink: &I,
) -> Result<(), Refusal>
    ensures drawing { Performs S.means S.keeps S.rest
        (paint_task (with_clip (overlap pencil.old.clip rect) pencil.old) area code (I.shade ink.now)) result
        surface.old surface.new }
    ensures pencil { pencil.new ≡ pencil.old }
{
    let narrowing = Narrowing::new(pencil, rect);
    paint(surface, narrowing.pencil(), area, code, ink)?;
    Ok(())
}
