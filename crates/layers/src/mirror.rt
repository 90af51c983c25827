ghost use Rattle.std.specs.Prelude.{◌≡◌, false, pos, MatchOption};
ghost use Rattle.layers.specs.Sounds.{mirror_frame, mirror_sound};
ghost use Rattle.surface.specs.Rects.{nothing};
ghost use Rattle.layers.specs.Layers.{across, mirrored};
ghost use Rattle.surface.specs.Meaning.{spans};

use crate::span::cut;
use surface::Surface;

// A surface with left and right exchanged.
#[derive(Drop)]
pub struct Mirror<S> {
    below: S,
}

impl<S: Surface> Mirror<S> {
    pub fn new(below: S) -> Mirror<S>
        ensures { result.below ≡ below }
    {
        Mirror { below }
    }

    // By hand, as in the other layers: each has its own fields.
    pub fn into_below(self) -> S
        ensures { result ≡ self.below }
    {
        let Mirror { below } = self;
        below
    }
}

// The column that the mirror shows at x.
fn column<S: Surface>(below: &S, x: i32) -> Option<i32>
    ensures { MatchOption result (spans (pos 0) (S.means below.now).width x ≡ false) (λ c. c ≡ across (S.means below.now).width x) }
{
    let width = i32::from(below.width());
    (0 <= x && x < width).then(|| width - 1 - x)
}

impl<S: Surface> Surface for Mirror<S> {
    ghost means = { λ s. mirrored (S.Surface.means s.below) };

    ghost Rest = { S.Surface.Rest };

    ghost rest = { λ s. S.Surface.rest s.below };

    ghost stays = { λ s t e. mirror_frame (S.Surface.means s.below) (S.Surface.means t.below) (S.Surface.stays s.below t.below e) };

    ghost sound = { λ s. mirror_sound (S.Surface.sound s.below) };

    ghost keeps = { λ _. nothing };

    // Size and depth forward by hand, as in Rust: a trait for it would be longer than the three lines.
    fn width(&self) -> u16 {
        self.below.width()
    }

    fn height(&self) -> u16 {
        self.below.height()
    }

    fn depth(&self) -> u8 {
        self.below.depth()
    }

    fn word(&self, x: i32, y: i32) -> u16 {
        column(&self.below, x).map_or(0, |column| self.below.word(column, y))
    }

    fn is_open(&self, x: i32, y: i32) -> bool {
        column(&self.below, x).is_some_and(|column| self.below.is_open(column, y))
    }

    fn fill(&mut self, x: i32, y: i32, n: u16, v: u16) {
        let width = i32::from(self.below.width());
        let part = cut(x, n, 0, width);
        let start = width - part.start - i32::from(part.count);
        self.below.fill(start, y, part.count, v);
    }
}
