ghost use Rattle.std.specs.Iterator.{at_most};
ghost use Rattle.std.specs.Int.{int_gap};
ghost use Rattle.copies.specs.Sweeps.{steps};

use std::ops::Range;

// The places of a range, from its first on or from its last.
#[derive(Drop)]
pub(crate) struct Sweep {
    pub(crate) places: Range<i32>,
    pub(crate) backwards: bool,
}

impl Iterator for Sweep {
    type Item = i32;

    ghost next_gives = { steps };

    ghost remaining = { λ s. at_most (int_gap s.places.start s.places.end) };

    fn next(&mut self) -> Option<i32> {
        if self.backwards {
            self.places.next_back()
        } else {
            self.places.next()
        }
    }
}
