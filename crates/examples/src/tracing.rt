ghost use Rattle.std.specs.Prelude.{◌≡◌, ℕ, ◌<◌, [], ◌∷◌, length, slice_index};
ghost use Rattle.raster.specs.Packing.{packed};
ghost use Rattle.lines.specs.Examples.{at};
ghost use Rattle.examples.specs.Pictures.{inked, lined};

use drawing::Point;
use lines::line;
use pencil::{Pen, Pencil};
use raster::Packed;

// The pencil that a run starts with, with a pen of colour 1.
fn pencil() -> Pencil
    ensures { result ≡ inked }
{
    Pencil {
        pen: Pen::Solid { colour: 1 },
        ..Pencil::new()
    }
}

// Draws a line from (0, 0) in a picture of eight columns and three rows.
fn trace(memory: &mut [u8], x: u8, y: u8)
    requires { length memory.old ≡ 3 }
    ensures picture { packed 8 3 memory.new ≡ lined (at x y) (packed 8 3 memory.old) }
    ensures bytes { (k : ℕ) → slice_index memory.new k < 256 }
{
    let mut picture = Packed::new(memory, 8, 3);
    let to = Point {
        x: i32::from(x),
        y: i32::from(y),
    };
    let _ = line(&mut picture, &pencil(), Point { x: 0, y: 0 }, to);
}

// Eight columns and three rows, all 0, with a line from (0, 0) to (5, 2).
pub fn line_gently() -> [u8; 3]
    ensures { result ≡ 0b1100_0000 ∷ 0b0011_0000 ∷ 0b0000_1000 ∷ [] }
{
    let mut memory = [0; 3];
    trace(&mut memory, 5, 2);
    memory
}

// The same with a line from (0, 0) to (4, 2), which has ties.
pub fn line_with_ties() -> [u8; 3]
    ensures { result ≡ 0b1000_0000 ∷ 0b0110_0000 ∷ 0b0001_0000 ∷ [] }
{
    let mut memory = [0; 3];
    trace(&mut memory, 4, 2);
    memory
}
