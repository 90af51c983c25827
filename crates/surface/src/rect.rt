ghost use Rattle.std.specs.Prelude.{◌≡◌, Some};
ghost use Rattle.surface.specs.Rects.{holds, overlap, shown};

use std::fmt;

// The cells with left ≤ x < right and top ≤ y < bottom.
#[derive(Clone, Copy, PartialEq, Eq, Debug)]
pub struct Rect {
    pub left: i32,
    pub top: i32,
    pub right: i32,
    pub bottom: i32,
}

impl Rect {
    pub fn has(&self, x: i32, y: i32) -> bool
        ensures { result ≡ holds self.now x y }
    {
        self.left <= x && x < self.right && self.top <= y && y < self.bottom
    }

    // The rectangle of the cells that both hold.
    pub fn overlap(self, other: Rect) -> Rect
        ensures { result ≡ overlap self other }
    {
        Rect {
            left: self.left.max(other.left),
            top: self.top.max(other.top),
            right: self.right.min(other.right),
            bottom: self.bottom.min(other.bottom),
        }
    }
}

// LEFT TOP RIGHT BOTTOM.
impl fmt::Display for Rect {
    ghost output = { λ r. Some (shown r) };

    fn fmt<W: fmt::Write>(&self, f: &mut fmt::Formatter<W>) -> fmt::Result {
        let Rect {
            left,
            top,
            right,
            bottom,
        } = self;
        write!(f, "{left} {top} {right} {bottom}")
    }
}
