ghost use Rattle.std.specs.Prelude.{◌≡◌, ◌&&◌};
ghost use Rattle.surface.specs.Meaning.{drawn, strip};
ghost use Rattle.surface.specs.Rects.{holds};

use crate::fence::Fence;
use surface::{Rect, Surface};

// Fills the cells of a strip that lie in a rectangle: a fence on a surface that is lent.
pub fn fill_inside<S: Surface>(surface: &mut S, rect: Rect, x: i32, y: i32, n: u16, v: u16)
    ensures picture { S.means surface.new ≡ drawn (λ a b. strip x y n a b && holds rect a b) (λ _ _. v) (S.means surface.old) }
    ensures rest { S.rest surface.new ≡ S.rest surface.old }
{
    let mut fence = Fence::new(surface, rect);
    fence.fill(x, y, n, v);
    let _ = fence.into_below();
}
