ghost use Rattle.std.specs.Prelude.{◌≡◌, true, false, ◌&&◌, MatchResult};
ghost use Rattle.codes.specs.declared.refusal.Refusal.TheVariants.{Range};
ghost use Rattle.drawing.specs.Areas.{placed, ranged};
ghost use Rattle.copies.specs.Shifts.{towards};

use codes::Refusal;
use drawing::{Area, Point};

// From a cell to the cell that is copied to it.
#[derive(Clone, Copy)]
pub struct Shift {
    pub dx: i32,
    pub dy: i32,
}

impl Shift {
    // From an area's corner to the corner of what is copied to it.
    pub(crate) fn new(area: Area, source: Point) -> Result<Shift, Refusal>
        ensures { MatchResult result (λ d. ((ranged area && placed source) ≡ true) × (d ≡ towards area source)) (λ e. ((ranged area && placed source) ≡ false) × (e ≡ Range)) }
    {
        if !area.in_range() || !source.in_range() {
            return Err(Refusal::Range);
        }
        Ok(Shift {
            dx: source.x - area.x,
            dy: source.y - area.y,
        })
    }
}
