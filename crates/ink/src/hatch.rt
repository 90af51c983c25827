ghost use Rattle.std.specs.Prelude.{◌≡◌, ◌<◌, MatchResult};
ghost use Rattle.codes.specs.declared.refusal.Refusal.TheVariants.{Value};
ghost use Rattle.ink.specs.Hatches.{eighth, hatched, lined, style_number};

use crate::shade::Ink;
use codes::Refusal;

// Where the lines of a hatch run, by the published names and numbers.
#[derive(Clone, Copy, PartialEq, Eq, Debug)]
pub enum HatchStyle {
    Horizontal = 0,
    Vertical = 1,
    ForwardDiagonal = 2,
    BackwardDiagonal = 3,
    Cross = 4,
    DiagonalCross = 5,
}

// The style of a number from 0 to 5.
impl TryFrom<u16> for HatchStyle {
    type Error = Refusal;

    ghost try_from_gives = { λ number r. MatchResult r (λ s. style_number s ≡ number) (λ e. (e ≡ Value) × (number < 6 → ⊥)) };

    fn try_from(number: u16) -> Result<HatchStyle, Refusal> {
        match number {
            0 => Ok(HatchStyle::Horizontal),
            1 => Ok(HatchStyle::Vertical),
            2 => Ok(HatchStyle::ForwardDiagonal),
            3 => Ok(HatchStyle::BackwardDiagonal),
            4 => Ok(HatchStyle::Cross),
            5 => Ok(HatchStyle::DiagonalCross),
            _ => Err(Refusal::Value),
        }
    }
}

// Lines of one colour on a ground of another.
#[derive(Clone, Copy)]
pub struct Hatch {
    pub style: HatchStyle,
    pub line: u16,
    pub back: u16,
}

impl Ink for Hatch {
    ghost shade = { hatched };

    fn word(&self, x: i32, y: i32) -> u16 {
        if on_line(self.style, x, y) {
            self.line
        } else {
            self.back
        }
    }

    fn solid(&self) -> Option<u16> {
        None
    }
}

fn on_line(style: HatchStyle, x: i32, y: i32) -> bool
    ensures { result ≡ lined style (eighth x) (eighth y) }
{
    let a = phase(x);
    let b = phase(y);
    match style {
        HatchStyle::Horizontal => b == 4,
        HatchStyle::Vertical => a == 4,
        HatchStyle::ForwardDiagonal => a == b,
        HatchStyle::BackwardDiagonal => a + b == 7,
        HatchStyle::Cross => b == 4 || a == 4,
        HatchStyle::DiagonalCross => a == b || a + b == 7,
    }
}

// The place of a coordinate in its block of eight.
fn phase(z: i32) -> u8
    ensures value { result ≡ eighth z }
    ensures low { result < 8 }
{
    z.rem_euclid(8) as u8
}
