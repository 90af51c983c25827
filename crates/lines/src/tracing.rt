ghost use Rattle.std.specs.Prelude.{◌≡◌, ◌&&◌, ℤ};
ghost use Rattle.surface.specs.Meaning.{inside, strip};
ghost use Rattle.surface.specs.Rects.{holds};
ghost use Rattle.surface.specs.Drawing.{Draws};
ghost use Rattle.drawing.specs.Lines.{longer, traced};
ghost use Rattle.drawing.specs.Tasks.{Performs, line_task, mixing};
ghost use Rattle.lines.specs.Examples.{Examples};

use crate::course::Course;
use crate::segment::Segment;
use codes::{LineMode, Refusal};
use drawing::Point;
use pencil::{Pen, Pencil};
use surface::{Rect, Surface};

// What a line draws its cells with: a colour in a mode, inside a rectangle.
#[derive(Clone, Copy)]
struct Stroke {
    rect: Rect,
    mode: LineMode,
    colour: u16,
}

impl Stroke {
    // Draws one cell, if it lies in the rectangle.
    fn dot<S: Surface>(self, surface: &mut S, at: Point)
        ensures { Draws S.means S.keeps S.rest (λ a b. strip at.x at.y 1 a b && holds self.rect a b) (mixing self.mode self.colour)
            surface.old surface.new }
    {
        if self.rect.has(at.x, at.y) {
            let v = self.mode.mix(self.colour, surface.word(at.x, at.y));
            surface.set(at.x, at.y, v);
        }
    }

    // Draws the cells of a segment that lie in the rectangle.
    fn trace<S: Surface>(self, surface: &mut S, segment: Segment)
        ensures { Draws S.means S.keeps S.rest
            (λ a b. traced segment.from segment.to (longer segment.from segment.to) a b && holds self.rect a b)
            (mixing self.mode self.colour) surface.old surface.new }
    {
        if segment.misses(self.rect) {
            return;
        }
        let Some(course) = Course::within(segment, self.rect) else {
            return;
        };
        for at in course {
            self.dot(surface, at);
        }
    }
}

// The cells of a clip inside a picture of this size.
fn shown(clip: Rect, width: u16, height: u16) -> Rect
    ensures { (a b : ℤ) → holds result a b ≡ (holds clip a b && inside width height a b) }
{
    clip.overlap(Rect {
        left: 0,
        top: 0,
        right: i32::from(width),
        bottom: i32::from(height),
    })
}

// Draws a line inside a pencil's clip, from its first cell up to its last, which it leaves out.
pub fn line<S: Surface>(
    surface: &mut S,
    pencil: &Pencil,
    from: Point,
    to: Point,
) -> Result<(), Refusal>
    ensures { Performs S.means S.keeps S.rest (line_task pencil.now from to) result surface.old surface.new }
{
    let segment = Segment::new(from, to)?;
    if let Pen::Solid { colour } = pencil.pen {
        let stroke = Stroke {
            rect: shown(pencil.clip, surface.width(), surface.height()),
            mode: pencil.mode,
            colour,
        };
        stroke.trace(surface, segment);
    }
    Ok(())
}

// Some lines, cell by cell.
pub fn line_examples()
    ensures { Examples }
{}
