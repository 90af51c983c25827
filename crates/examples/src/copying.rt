ghost use Rattle.std.specs.Prelude.{◌≡◌, ℕ, ◌<◌, [], ◌∷◌, length, pos, slice_index};
ghost use Rattle.raster.specs.Bytewise.{bytewise};
ghost use Rattle.examples.specs.Pictures.{moved};

use copies::copy;
use drawing::{Area, Point};
use ink::Solid;
use pencil::Pencil;
use raster::Bytes;

// Copies w cells of a row of five from column `from` on to column `to`. Here and in the three like it the clause `bytes` tells the caller
// what its array's type tells only where it was not lent.
fn shift(memory: &mut [u8], w: u8, from: u8, to: u8)
    requires { length memory.old ≡ 5 }
    ensures row { bytewise 5 1 memory.new ≡ moved w (pos from) (pos to) (bytewise 5 1 memory.old) }
    ensures bytes { (k : ℕ) → slice_index memory.new k < 256 }
{
    let mut row = Bytes::new(memory, 5, 1);
    let area = Area {
        x: i32::from(to),
        y: 0,
        w: i32::from(w),
        h: 1,
    };
    let source = Point {
        x: i32::from(from),
        y: 0,
    };
    let _ = copy(&mut row, &Pencil::new(), area, source, 0xCC, &Solid(0));
}

// A row of five cells, of which the first four were copied one to the right.
pub fn copy_right() -> [u8; 5]
    ensures { result ≡ 1 ∷ 1 ∷ 2 ∷ 3 ∷ 4 ∷ [] }
{
    let mut memory = [1, 2, 3, 4, 5];
    shift(&mut memory, 4, 0, 1);
    memory
}

// The same row, to which five cells from the third on were copied: right of it the words are 0.
pub fn copy_left() -> [u8; 5]
    ensures { result ≡ 3 ∷ 4 ∷ 5 ∷ 0 ∷ 0 ∷ [] }
{
    let mut memory = [1, 2, 3, 4, 5];
    shift(&mut memory, 5, 2, 0);
    memory
}
