ghost use Rattle.std.specs.Prelude.{◌≡◌, ◌≤◌, ◌==◌, true, false, MatchOption};
ghost use Rattle.raster.specs.Layout.{sized};

// The longest side that a picture may have.
const MAX_SIDE: u32 = 4096;

// The size of a picture, 0 × 0 where it has no cells.
#[derive(Clone, Copy)]
pub struct Size {
    pub width: u16,
    pub height: u16,
    ghost wide: { width ≤ 4096 },
    ghost high: { height ≤ 4096 },
    ghost both: { (width == 0) ≡ (height == 0) },
}

impl Size {
    // A size that a picture with cells may have.
    pub fn new(width: u32, height: u32) -> Option<Size>
        ensures { MatchOption result (sized width height ≡ false) (λ s. (sized width height ≡ true) × (s.width ≡ width) × (s.height ≡ height)) }
    {
        let sides = 1..=MAX_SIDE;
        if !sides.contains(&width) || !sides.contains(&height) {
            return None;
        }
        Some(Size {
            width: width as u16,
            height: height as u16,
        })
    }
}
