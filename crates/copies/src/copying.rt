ghost use Rattle.std.specs.Prelude.{◌≡◌, true, ◌&&◌, ℤ};
ghost use Rattle.surface.specs.Meaning.{strip};
ghost use Rattle.surface.specs.Rects.{holds};
ghost use Rattle.surface.specs.Drawing.{Draws};
ghost use Rattle.drawing.specs.Areas.{between, row};
ghost use Rattle.drawing.specs.Tasks.{Performs, copied, copy_task};
ghost use Rattle.copies.specs.Shifts.{Reached};

use crate::shift::Shift;
use crate::sweep::Sweep;
use codes::{Refusal, combine, depends_on_source};
use drawing::{Area, Point, blend, visible};
use ink::{Ink, Solid};
use pencil::Pencil;
use surface::{Rect, Surface};

// A copy to a rectangle, by a raster operation whose source is the picture itself, a shift away.
#[derive(Drop)]
struct Copying<'a, I> {
    target: Rect,
    shift: Shift,
    code: u8,
    ink: &'a I,
    ghost reached: { Reached (holds target) shift },
}

impl<I: Ink> Copying<'_, I> {
    fn copy_cell<S: Surface>(&self, surface: &mut S, x: i32, y: i32)
        requires { holds self.now.target x y ≡ true }
        ensures { Draws S.means S.keeps S.rest (strip x y 1) (copied self.now.code (I.shade self.now.ink.now) self.now.shift.dx self.now.shift.dy)
            surface.old surface.new }
    {
        let source = surface.word(x + self.shift.dx, y + self.shift.dy);
        let v = combine(self.code, self.ink.word(x, y), source, surface.word(x, y));
        surface.set(x, y, v);
    }

    // Copies to the cells in row y, in the order in which no cell is read after it was changed.
    fn copy_row<S: Surface>(&self, surface: &mut S, y: i32)
        requires { between self.now.target.top self.now.target.bottom y ≡ true }
        ensures { Draws S.means S.keeps S.rest (row self.now.target y) (copied self.now.code (I.shade self.now.ink.now) self.now.shift.dx self.now.shift.dy)
            surface.old surface.new }
    {
        let columns = Sweep {
            places: self.target.left..self.target.right,
            backwards: self.shift.dx < 0,
        };
        for x in columns {
            self.copy_cell(surface, x, y);
        }
    }

    // Copies row by row, in the order in which no cell is read after it was changed.
    fn copy_rows<S: Surface>(&self, surface: &mut S)
        ensures { Draws S.means S.keeps S.rest (holds self.now.target) (copied self.now.code (I.shade self.now.ink.now) self.now.shift.dx self.now.shift.dy)
            surface.old surface.new }
    {
        // Without columns no row has a cell: the rows are not gone through.
        if self.target.left >= self.target.right {
            return;
        }
        let rows = Sweep {
            places: self.target.top..self.target.bottom,
            backwards: self.shift.dy < 0,
        };
        for y in rows {
            self.copy_row(surface, y);
        }
    }
}

// Copies to an area, inside a pencil's clip, by a raster operation whose source is the picture's area of the same size from a point;
// the two areas may overlap.
pub fn copy<S: Surface, I: Ink>(
    surface: &mut S,
    pencil: &Pencil,
    area: Area,
    source: Point,
    code: u8,
    ink: &I,
) -> Result<(), Refusal>
    ensures { Performs S.means S.keeps S.rest (copy_task pencil.now area source code (I.shade ink.now)) result
        surface.old surface.new }
{
    let shift = Shift::new(area, source)?;
    if !depends_on_source(code) {
        return blend(surface, pencil, area, code, ink, &Solid(0));
    }
    let target = visible(area, pencil.clip, surface.width(), surface.height());
    let copying = Copying {
        target,
        shift,
        code,
        ink,
    };
    copying.copy_rows(surface);
    Ok(())
}
