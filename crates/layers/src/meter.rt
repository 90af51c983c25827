ghost use Rattle.std.specs.Prelude.{◌≡◌, true, ◌&&◌, None, MatchOption};
ghost use Rattle.surface.specs.Meaning.{strip};
ghost use Rattle.layers.specs.Rows.{row, Shut, First, Last};
ghost use Rattle.surface.specs.Rects.{bounds};
ghost use Rattle.layers.specs.Bounds.{hull, joined, solid, Spanned};

use crate::span::cut;
use surface::{Rect, Surface};

// A surface, and the smallest rectangle that holds the open cells that sets and fills reached.
#[derive(Drop)]
pub struct Meter<S> {
    below: S,
    kept: Option<Rect>,
    ghost full: { solid kept ≡ true },
}

impl<S: Surface> Meter<S> {
    pub fn new(below: S) -> Meter<S>
        ensures below { result.below ≡ below }
        ensures kept { result.kept ≡ None }
    {
        Meter { below, kept: None }
    }

    // The smallest rectangle that holds the open cells reached, or none where there were none.
    pub fn bounds(&self) -> Option<Rect>
        ensures { result ≡ self.now.kept }
    {
        self.kept
    }

    // Leaves none, and changes nothing else.
    pub fn clear(&mut self)
        ensures below { self.new.below ≡ self.old.below }
        ensures kept { self.new.kept ≡ None }
    {
        self.kept = None;
    }

    // By hand, as in the other layers: each has its own fields.
    pub fn into_below(self) -> S
        ensures { result ≡ self.below }
    {
        let Meter { below, kept: _ } = self;
        below
    }
}

// The first open cell of a row in from..to.
fn first_open<S: Surface>(below: &S, y: i32, from: i32, to: i32) -> Option<i32>
    ensures { MatchOption result (Shut (row y (S.means below.now)) from to) (First (row y (S.means below.now)) from to) }
{
    (from..to).find(|x| below.is_open(*x, y))
}

// The last open cell of a row in from..to.
fn last_open<S: Surface>(below: &S, y: i32, from: i32, to: i32) -> Option<i32>
    ensures { MatchOption result (Shut (row y (S.means below.now)) from to) (Last (row y (S.means below.now)) from to) }
{
    (from..to).rev().find(|x| below.is_open(*x, y))
}

// The smallest rectangle that holds the open cells of a strip.
fn reached<S: Surface>(below: &S, x: i32, y: i32, n: u16) -> Option<Rect>
    ensures { Spanned (λ a b. strip x y n a b && (S.means below.now).opens a b) result }
{
    let part = cut(x, n, 0, i32::from(below.width()));
    let end = part.start + i32::from(part.count);
    let first = first_open(below, y, part.start, end)?;
    let last = last_open(below, y, part.start, end)?;
    Some(Rect {
        left: first,
        top: y,
        right: last + 1,
        bottom: y + 1,
    })
}

// The smallest rectangle that holds two that are not empty.
fn hull(one: Rect, other: Rect) -> Rect
    ensures { result ≡ hull one other }
{
    Rect {
        left: one.left.min(other.left),
        top: one.top.min(other.top),
        right: one.right.max(other.right),
        bottom: one.bottom.max(other.bottom),
    }
}

// What is kept once more was reached.
fn grown(kept: Option<Rect>, more: Option<Rect>) -> Option<Rect>
    ensures { result ≡ joined kept more }
{
    match (kept, more) {
        (Some(kept), Some(more)) => Some(hull(kept, more)),
        (None, more) => more,
        (kept, None) => kept,
    }
}

impl<S: Surface> Surface for Meter<S> {
    ghost means = { λ s. S.Surface.means s.below };

    ghost Rest = { S.Surface.Rest };

    ghost rest = { λ s. S.Surface.rest s.below };

    ghost stays = { λ s t e. S.Surface.stays s.below t.below e };

    ghost sound = { λ s. S.Surface.sound s.below };

    ghost keeps = { λ s. bounds s.kept };

    // Size and depth forward by hand, as in Rust: a trait for it would be longer than the three lines.
    fn width(&self) -> u16 {
        self.below.width()
    }

    fn height(&self) -> u16 {
        self.below.height()
    }

    fn depth(&self) -> u8 {
        self.below.depth()
    }

    fn word(&self, x: i32, y: i32) -> u16 {
        self.below.word(x, y)
    }

    fn is_open(&self, x: i32, y: i32) -> bool {
        self.below.is_open(x, y)
    }

    fn fill(&mut self, x: i32, y: i32, n: u16, v: u16) {
        let more = reached(&self.below, x, y, n);
        self.kept = grown(self.kept, more);
        self.below.fill(x, y, n, v);
    }
}
