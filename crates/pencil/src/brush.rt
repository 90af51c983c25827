ghost use Rattle.std.specs.Prelude.{◌≡◌, MatchResult};
ghost use Rattle.codes.specs.declared.refusal.Refusal.TheVariants.{Value};
ghost use Rattle.pencil.specs.Tools.{BrushIs, NoBrush, brushed, inked};

use codes::Refusal;
use ink::{Hatch, HatchStyle, Ink, Solid};

// A brush paints one colour, or a hatch of one on the back colour.
#[derive(Clone, Copy, PartialEq, Eq, Debug)]
pub enum Brush {
    Solid { colour: u16 },
    Hatched { style: HatchStyle, colour: u16 },
}

impl Brush {
    // The brush of a published style, 0 for solid or 2 for hatched. A solid brush reads no hatch.
    // No TryFrom: three numbers in a tuple would lose their names.
    pub fn new(style: u16, colour: u16, hatch: u16) -> Result<Brush, Refusal>
        ensures { MatchResult result (BrushIs style colour hatch) (λ e. (e ≡ Value) × NoBrush style hatch) }
    {
        match style {
            0 => Ok(Brush::Solid { colour }),
            2 => Ok(Brush::Hatched {
                style: HatchStyle::try_from(hatch)?,
                colour,
            }),
            _ => Err(Refusal::Value),
        }
    }

    // The ink of the brush over a back colour.
    pub fn ink(self, back: u16) -> BrushInk
        ensures { result ≡ brushed self back }
    {
        match self {
            Brush::Solid { colour } => BrushInk::Solid(Solid(colour)),
            Brush::Hatched { style, colour } => BrushInk::Hatched(Hatch {
                style,
                line: colour,
                back,
            }),
        }
    }
}

// What a brush gives each cell.
#[derive(Clone, Copy)]
pub enum BrushInk {
    Solid(Solid),
    Hatched(Hatch),
}

impl Ink for BrushInk {
    ghost shade = { inked };

    fn word(&self, x: i32, y: i32) -> u16 {
        match self {
            BrushInk::Solid(solid) => solid.word(x, y),
            BrushInk::Hatched(hatch) => hatch.word(x, y),
        }
    }

    fn solid(&self) -> Option<u16> {
        match self {
            BrushInk::Solid(solid) => solid.solid(),
            BrushInk::Hatched(hatch) => hatch.solid(),
        }
    }
}
