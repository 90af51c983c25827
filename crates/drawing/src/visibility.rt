ghost use Rattle.std.specs.Prelude.{◌≡◌, ◌&&◌, ℤ, pos, ◌+ℤ◌, ◌≤ℤ◌};
ghost use Rattle.surface.specs.Meaning.{inside, spans};
ghost use Rattle.surface.specs.Rects.{holds};
ghost use Rattle.drawing.specs.Areas.{Across, between, covers};

use crate::shape::Area;
use std::ops::Range;
use surface::Rect;

// The places from `start`, `length` of them, that lie in a clip and in a size.
fn cut(start: i32, length: i32, clip: Range<i32>, size: u16) -> Range<i32>
    ensures places { (a : ℤ) → between result.start result.end a ≡ (between start (start +ℤ length) a && (between clip.start clip.end a && spans (pos 0) size a)) }
    ensures first { pos 0 ≤ℤ result.start }
    ensures end { (pos 0 ≤ℤ result.end) × (result.end ≤ℤ pos size) }
{
    let end = i64::from(start) + i64::from(length);
    let last = end.min(i64::from(clip.end)).clamp(0, i64::from(size));
    start.max(clip.start).max(0)..last as i32
}

// What an area, a clip and a picture of this size share.
pub fn visible(area: Area, clip: Rect, width: u16, height: u16) -> Rect
    ensures cells { (a b : ℤ) → holds result a b ≡ ((covers area a b && holds clip a b) && inside width height a b) }
    ensures columns { Across width result }
{
    let columns = cut(area.x, area.w, clip.left..clip.right, width);
    let rows = cut(area.y, area.h, clip.top..clip.bottom, height);
    Rect {
        left: columns.start,
        top: rows.start,
        right: columns.end,
        bottom: rows.end,
    }
}
