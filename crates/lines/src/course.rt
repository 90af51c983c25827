ghost use Rattle.std.specs.Prelude.{◌≡◌, ◌+◌, ◌-◌, ◌*◌, ◌<◌, ◌≤◌, MatchOption};
ghost use Rattle.std.specs.Iterator.{at_most};
ghost use Rattle.drawing.specs.Lines.{longer, shorter, spot};
ghost use Rattle.lines.specs.Courses.{Aside, Meets};

use crate::segment::Segment;
use drawing::Point;
use std::ops::Range;
use surface::Rect;

// The cells of a segment at some places along its longer way: how far aside the next one lies, and the rest of the division. It grows by
// `rise`, twice the shorter side, at each place, and `run`, twice the longer side, is one step aside.
#[derive(Drop)]
pub(crate) struct Course {
    segment: Segment,
    places: Range<u32>,
    rise: u32,
    run: u32,
    aside: u32,
    rest: u32,
    ghost sides: { (rise ≡ 2 * shorter segment.from segment.to) × (run ≡ 2 * longer segment.from segment.to) },
    ghost small: { (rise ≤ run) × (run < 524288) },
    ghost within: { 2 * places.end ≤ run },
    ghost exact: { Aside (shorter segment.from segment.to) (longer segment.from segment.to) places.start aside rest },
}

impl Course {
    fn new(segment: Segment, places: Range<u32>) -> Course
        requires some { places.start < places.end }
        requires within { places.end ≤ longer segment.from segment.to }
        ensures segment { result.segment ≡ segment }
        ensures places { result.places ≡ places }
    {
        let short = segment.short_side();
        let long = segment.long_side();
        let whole = 2 * u64::from(places.start) * u64::from(short) + u64::from(long);
        let part = 2 * u64::from(long);
        Course {
            segment,
            places,
            rise: 2 * short,
            run: 2 * long,
            aside: (whole / part) as u32,
            rest: (whole % part) as u32,
        }
    }

    // The part of a segment that can lie in a rectangle; None where no part can. Inlined, so that a course is not put together in memory
    // and read back.
    #[inline(always)]
    pub(crate) fn within(segment: Segment, rect: Rect) -> Option<Course>
        ensures { MatchOption result (Meets segment.from segment.to rect 0 0)
            (λ c. (c.segment ≡ segment) × (c.places.start < c.places.end) × Meets segment.from segment.to rect c.places.start c.places.end) }
    {
        let places = segment.stretch(rect);
        if places.is_empty() {
            return None;
        }
        Some(Course::new(segment, places))
    }
}

impl Iterator for Course {
    type Item = Point;

    ghost next_gives = { λ s r t. (t.segment ≡ s.segment) × (t.places.end ≡ s.places.end) × MatchOption r (s.places.end ≤ s.places.start)
        (λ p. (s.places.start < s.places.end) × (t.places.start ≡ s.places.start + 1) × (p ≡ spot s.segment.from s.segment.to s.places.start)) };

    ghost remaining = { λ s. at_most (s.places.end - s.places.start) };

    fn next(&mut self) -> Option<Point> {
        let along = self.places.next()?;
        let cell = self.segment.at(along, self.aside);
        self.rest += self.rise;
        if self.rest >= self.run {
            self.rest -= self.run;
            self.aside += 1;
        }
        Some(cell)
    }
}
