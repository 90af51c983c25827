ghost use Rattle.std.specs.Prelude.{◌≡◌};
ghost use Rattle.std.proofs.Common.{ap};
ghost use Rattle.layers.specs.Sounds.{fence_frame, fence_sound};
ghost use Rattle.surface.specs.Rects.{nothing};
ghost use Rattle.layers.specs.Layers.{fenced};
ghost use Rattle.surface.specs.declared.rect.Rect.{Rect};

use crate::span::cut;
use surface::{Rect, Surface};

// A surface of which only the cells of a rectangle can be open. It shuts cells and blanks none.
#[derive(Drop)]
pub struct Fence<S> {
    below: S,
    rect: Rect,
}

impl<S: Surface> Fence<S> {
    pub fn new(below: S, rect: Rect) -> Fence<S>
        ensures below { result.below ≡ below }
        ensures rect { result.rect ≡ rect }
    {
        Fence { below, rect }
    }

    pub fn rect(&self) -> Rect
        ensures { result ≡ self.now.rect }
    {
        self.rect
    }

    // `new` and this by hand in each layer: each has its own fields, and a trait would have the same lines again.
    pub fn into_below(self) -> S
        ensures { result ≡ self.below }
    {
        let Fence { below, rect: _ } = self;
        below
    }
}

impl<S: Surface> Surface for Fence<S> {
    ghost means = { λ s. fenced s.rect (S.Surface.means s.below) };

    ghost Rest = { Rect × S.Surface.Rest };

    ghost rest = { λ s. (s.rect, S.Surface.rest s.below) };

    ghost stays = { λ s t e. fence_frame s.rect t.rect (S.Surface.means s.below) (S.Surface.means t.below) (ap (λ p. p.0) e) (S.Surface.stays s.below t.below (ap (λ p. p.1) e)) };

    ghost sound = { λ s. fence_sound s.rect (S.Surface.sound s.below) };

    ghost keeps = { λ _. nothing };

    // Size and depth forward by hand, as in Rust: a trait for it would be longer than the three lines.
    fn width(&self) -> u16 {
        self.below.width()
    }

    fn height(&self) -> u16 {
        self.below.height()
    }

    fn depth(&self) -> u8 {
        self.below.depth()
    }

    fn word(&self, x: i32, y: i32) -> u16 {
        self.below.word(x, y)
    }

    fn is_open(&self, x: i32, y: i32) -> bool {
        self.rect.has(x, y) && self.below.is_open(x, y)
    }

    fn set(&mut self, x: i32, y: i32, v: u16) {
        if self.rect.has(x, y) {
            self.below.set(x, y, v);
        }
    }

    fn fill(&mut self, x: i32, y: i32, n: u16, v: u16) {
        if self.rect.top <= y && y < self.rect.bottom {
            let part = cut(x, n, self.rect.left, self.rect.right);
            self.below.fill(part.start, y, part.count, v);
        }
    }
}
