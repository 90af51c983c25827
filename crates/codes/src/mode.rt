ghost use Rattle.std.specs.Prelude.{◌≡◌, ◌≤◌, MatchResult};
ghost use Rattle.codes.specs.declared.refusal.Refusal.TheVariants.{Value};
ghost use Rattle.codes.specs.Modes.{mode_number};
ghost use Rattle.codes.specs.Operations.{mixed};

use crate::mux::{choose, spread};
use crate::refusal::Refusal;

// How a line's word is made of the pen's and the picture's, by the published names and numbers.
#[derive(Clone, Copy, PartialEq, Eq, Debug)]
pub enum LineMode {
    Black = 1,
    NotMergePen = 2,
    MaskNotPen = 3,
    NotCopyPen = 4,
    MaskPenNot = 5,
    Not = 6,
    XorPen = 7,
    NotMaskPen = 8,
    MaskPen = 9,
    NotXorPen = 10,
    Nop = 11,
    MergeNotPen = 12,
    CopyPen = 13,
    MergePenNot = 14,
    MergePen = 15,
    White = 16,
}

// The mode of a number from 1 to 16.
impl TryFrom<u16> for LineMode {
    type Error = Refusal;

    ghost try_from_gives = { λ number r. MatchResult r (λ m. mode_number m ≡ number) (λ e. (e ≡ Value) × (1 ≤ number → number ≤ 16 → ⊥)) };

    fn try_from(number: u16) -> Result<LineMode, Refusal> {
        match number {
            1 => Ok(LineMode::Black),
            2 => Ok(LineMode::NotMergePen),
            3 => Ok(LineMode::MaskNotPen),
            4 => Ok(LineMode::NotCopyPen),
            5 => Ok(LineMode::MaskPenNot),
            6 => Ok(LineMode::Not),
            7 => Ok(LineMode::XorPen),
            8 => Ok(LineMode::NotMaskPen),
            9 => Ok(LineMode::MaskPen),
            10 => Ok(LineMode::NotXorPen),
            11 => Ok(LineMode::Nop),
            12 => Ok(LineMode::MergeNotPen),
            13 => Ok(LineMode::CopyPen),
            14 => Ok(LineMode::MergePenNot),
            15 => Ok(LineMode::MergePen),
            16 => Ok(LineMode::White),
            _ => Err(Refusal::Value),
        }
    }
}

impl LineMode {
    // Named, and no From: u8::from would not say which number it is.
    pub fn number(self) -> u8
        ensures { result ≡ mode_number self }
    {
        self as u8
    }

    // The word of a cell that a line reaches.
    pub fn mix(self, pen: u16, picture: u16) -> u16
        ensures { result ≡ mixed (mode_number self) pen picture }
    {
        let table = self.number().saturating_sub(1);
        let off = choose(picture, spread(table, 1), spread(table, 0));
        let on = choose(picture, spread(table, 3), spread(table, 2));
        choose(pen, on, off)
    }
}
