ghost use Rattle.std.specs.Prelude.{◌≡◌, MatchResult};
ghost use Rattle.codes.specs.declared.refusal.Refusal.TheVariants.{Value};
ghost use Rattle.pencil.specs.Tools.{PenIs, NoPen};

use codes::Refusal;

// A pen draws lines of one colour, or none. No Option stands for Null: the format names that pen, and it is an object like any other.
#[derive(Clone, Copy, PartialEq, Eq, Debug)]
pub enum Pen {
    Solid { colour: u16 },
    Null,
}

impl Pen {
    // The pen of a published style, 0 for solid or 5 for none, with a width of 0 or 1.
    // No TryFrom: three numbers in a tuple would lose their names.
    pub fn new(style: u16, width: i16, colour: u16) -> Result<Pen, Refusal>
        ensures { MatchResult result (PenIs style width colour) (λ e. (e ≡ Value) × NoPen style width) }
    {
        if width != 0 && width != 1 {
            return Err(Refusal::Value);
        }
        match style {
            0 => Ok(Pen::Solid { colour }),
            5 => Ok(Pen::Null),
            _ => Err(Refusal::Value),
        }
    }
}
