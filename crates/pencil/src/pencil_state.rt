ghost use Rattle.std.specs.Prelude.{◌≡◌};
ghost use Rattle.pencil.specs.Pencils.{fresh, with_clip};
ghost use Rattle.surface.specs.Rects.{overlap};

use crate::brush::Brush;
use crate::pen::Pen;
use codes::LineMode;
use surface::Rect;

// What a drawing needs besides its shape: where it may draw, and with what.
#[derive(Clone, Copy)]
pub struct Pencil {
    pub clip: Rect,
    pub pen: Pen,
    pub mode: LineMode,
    pub brush: Brush,
    pub back: u16,
}

impl Pencil {
    // The pencil that a run starts with.
    pub fn new() -> Pencil
        ensures { result ≡ fresh }
    {
        Pencil {
            clip: Rect {
                left: 0,
                top: 0,
                right: 4096,
                bottom: 4096,
            },
            pen: Pen::Solid { colour: 0 },
            mode: LineMode::CopyPen,
            brush: Brush::Solid { colour: 65535 },
            back: 65535,
        }
    }

    // Cuts the clip by a rectangle.
    pub fn cut_clip(&mut self, rect: Rect)
        ensures { self.new ≡ with_clip (overlap self.old.clip rect) self.old }
    {
        self.clip = self.clip.overlap(rect);
    }
}
