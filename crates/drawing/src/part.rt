ghost use Rattle.std.specs.Prelude.{◌≡◌, pos, ◌-ℤ◌};
ghost use Rattle.std.specs.Int.{int_max};
ghost use Rattle.surface.specs.Rects.{holds};
ghost use Rattle.surface.specs.Drawing.{Draws};
ghost use Rattle.drawing.specs.Areas.{Across};

use surface::{Rect, Surface};

// A rectangle whose columns lie in a picture.
#[derive(Clone, Copy)]
pub(crate) struct Part {
    pub(crate) rect: Rect,
    ghost across: { Across 65535 rect },
}

impl Part {
    // How many columns it has.
    fn breadth(&self) -> u16
        ensures { pos result ≡ int_max (self.now.rect.right -ℤ self.now.rect.left) (pos 0) }
    {
        (self.rect.right - self.rect.left).max(0) as u16
    }

    // Gives its cells one word.
    pub(crate) fn fill<S: Surface>(&self, surface: &mut S, v: u16)
        ensures { Draws S.means S.keeps S.rest (holds self.now.rect) (λ _ _ _. v) surface.old surface.new }
    {
        let n = self.breadth();
        for y in self.rect.top..self.rect.bottom {
            surface.fill(self.rect.left, y, n, v);
        }
    }
}
