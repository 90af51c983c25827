ghost use Rattle.std.specs.Prelude.{◌≡◌, ℕ, ℤ, IfSome};
ghost use Rattle.codes.specs.Operations.{combined};
ghost use Rattle.surface.specs.Rects.{holds};
ghost use Rattle.surface.specs.Drawing.{Draws};
ghost use Rattle.drawing.specs.Areas.{row};
ghost use Rattle.drawing.specs.Tasks.{blended};

use crate::part::Part;
use codes::{combine, depends_on_picture};
use ink::Ink;
use surface::{Rect, Surface};

// A raster operation with the inks of its pattern and its source.
#[derive(Drop)]
pub(crate) struct Operation<'a, P, Q> {
    pub(crate) code: u8,
    pub(crate) pattern: &'a P,
    pub(crate) source: &'a Q,
}

impl<P: Ink, Q: Ink> Operation<'_, P, Q> {
    // The word that it gives every cell, whatever the picture; None where it may give several.
    fn uniform(&self) -> Option<u16>
        ensures { IfSome result (λ v. (a b : ℤ) (d : ℕ) → v ≡ combined self.now.code (P.shade self.now.pattern.now a b) (Q.shade self.now.source.now a b) d) }
    {
        if depends_on_picture(self.code) {
            return None;
        }
        Some(combine(self.code, self.pattern.solid()?, self.source.solid()?, 0))
    }

    // The word that it gives a cell, from the picture's. Inlined: in a library over three layouts it would be called at each cell.
    #[inline(always)]
    fn word(&self, x: i32, y: i32, picture: u16) -> u16
        ensures { result ≡ combined self.now.code (P.shade self.now.pattern.now x y) (Q.shade self.now.source.now x y) picture }
    {
        combine(
            self.code,
            self.pattern.word(x, y),
            self.source.word(x, y),
            picture,
        )
    }

    // Gives the cells of a rectangle's columns in row y their words.
    fn blend_row<S: Surface>(&self, surface: &mut S, area: Rect, y: i32)
        ensures { Draws S.means S.keeps S.rest (row area y) (blended self.now.code (P.shade self.now.pattern.now) (Q.shade self.now.source.now))
            surface.old surface.new }
    {
        for x in area.left..area.right {
            let v = self.word(x, y, surface.word(x, y));
            surface.set(x, y, v);
        }
    }

    // Gives the cells of a part their words.
    pub(crate) fn blend<S: Surface>(&self, surface: &mut S, part: &Part)
        ensures { Draws S.means S.keeps S.rest (holds part.now.rect) (blended self.now.code (P.shade self.now.pattern.now) (Q.shade self.now.source.now))
            surface.old surface.new }
    {
        if let Some(v) = self.uniform() {
            part.fill(surface, v);
            return;
        }
        for y in part.rect.top..part.rect.bottom {
            self.blend_row(surface, part.rect, y);
        }
    }
}
