ghost use Rattle.std.specs.Prelude.{◌≡◌, ℕ, ◌<◌, ◌≤◌, true, false, ◌&&◌, pos, ◌-ℤ◌, ◌≤ℤ◌, ◌<ℤ◌, unsigned_abs, MatchResult};
ghost use Rattle.codes.specs.declared.refusal.Refusal.TheVariants as refusal;
ghost use Rattle.drawing.specs.Areas.{between, coordinate, placed};
ghost use Rattle.surface.specs.Rects.{holds};
ghost use Rattle.drawing.specs.Lines.{columns, longer, place, rows, shorter, spot, toward};
ghost use Rattle.lines.specs.Courses.{Meets};

use codes::Refusal;
use drawing::Point;
use std::ops::Range;
use surface::Rect;

// The way from one point to another.
#[derive(Clone, Copy)]
pub(crate) struct Segment {
    pub(crate) from: Point,
    pub(crate) to: Point,
    ghost placed: { (placed from && placed to) ≡ true },
}

impl Segment {
    // A segment whose ends may be given directly.
    pub(crate) fn new(from: Point, to: Point) -> Result<Segment, Refusal>
        ensures { MatchResult result (λ s. (s.from ≡ from) × (s.to ≡ to)) (λ e. ((placed from && placed to) ≡ false) × (e ≡ refusal.Range)) }
    {
        if !from.in_range() || !to.in_range() {
            return Err(Refusal::Range);
        }
        Ok(Segment { from, to })
    }

    fn across(&self) -> u32
        ensures { result ≡ columns self.now.from self.now.to }
    {
        self.from.x.abs_diff(self.to.x)
    }

    fn down(&self) -> u32
        ensures { result ≡ rows self.now.from self.now.to }
    {
        self.from.y.abs_diff(self.to.y)
    }

    pub(crate) fn long_side(&self) -> u32
        ensures { result ≡ longer self.now.from self.now.to }
    {
        self.across().max(self.down())
    }

    pub(crate) fn short_side(&self) -> u32
        ensures { result ≡ shorter self.now.from self.now.to }
    {
        self.across().min(self.down())
    }

    // The cell so many places along the longer way, and so many aside.
    pub(crate) fn at(&self, along: u32, aside: u32) -> Point
        requires { (along < 262144) × (aside < 262144) }
        ensures { result ≡ place self.now.from self.now.to along aside }
    {
        if self.down() <= self.across() {
            Point {
                x: step(self.from.x, self.to.x, along),
                y: step(self.from.y, self.to.y, aside),
            }
        } else {
            Point {
                x: step(self.from.x, self.to.x, aside),
                y: step(self.from.y, self.to.y, along),
            }
        }
    }

    // Whether the line lies on one side of a rectangle, so that it has no cell there.
    pub(crate) fn misses(&self, rect: Rect) -> bool
        ensures { result ≡ true → (i : ℕ) → i < longer self.now.from self.now.to → holds rect (spot self.now.from self.now.to i).x (spot self.now.from self.now.to i).y ≡ false }
    {
        misses(self.from.x, self.to.x, rect.left..rect.right)
            || misses(self.from.y, self.to.y, rect.top..rect.bottom)
    }

    // The places along the longer way at which the line can lie in a rectangle.
    pub(crate) fn stretch(&self, rect: Rect) -> Range<u32>
        ensures { Meets self.now.from self.now.to rect result.start result.end }
    {
        let across = self.across();
        let down = self.down();
        if down <= across {
            reach(self.from.x, self.to.x, rect.left..rect.right, across)
        } else {
            reach(self.from.y, self.to.y, rect.top..rect.bottom, down)
        }
    }
}

// n places from a towards b.
fn step(a: i32, b: i32, n: u32) -> i32
    requires { (coordinate a ≡ true) × (n < 262144) }
    ensures { result ≡ toward a b n }
{
    if b < a { a - n as i32 } else { a + n as i32 }
}

// A count of places, from 0 to `most`.
fn limit(z: i64, most: u32) -> u32
    ensures below { (i : ℕ) → z ≤ℤ pos i → result ≤ i }
    ensures above { (i : ℕ) → i < most → pos i <ℤ z → i < result }
    ensures most { result ≤ most }
{
    z.clamp(0, i64::from(most)) as u32
}

// Whether the way from a to b lies on one side of a range.
fn misses(a: i32, b: i32, range: Range<i32>) -> bool
    ensures { result ≡ true → (n : ℕ) → n ≤ unsigned_abs (a -ℤ b) → between range.start range.end (toward a b n) ≡ false }
{
    a.max(b) < range.start || range.end <= a.min(b)
}

// The places at which the way from a towards b, `length` places long, lies in a range.
fn reach(a: i32, b: i32, range: Range<i32>, length: u32) -> Range<u32>
    ensures places { (i : ℕ) → i < length → between range.start range.end (toward a b i) ≡ true → (result.start ≤ i) × (i < result.end) }
    ensures end { result.end ≤ length }
{
    let start = i64::from(a);
    if b < a {
        limit(start - i64::from(range.end) + 1, length)..limit(
            start - i64::from(range.start) + 1,
            length,
        )
    } else {
        limit(i64::from(range.start) - start, length)..limit(i64::from(range.end) - start, length)
    }
}
