ghost use Rattle.std.specs.Prelude.{◌≡◌, ℕ, ◌<◌, ◌&&◌, [], ◌∷◌, map, length, pos, slice_index, Some, None};
ghost use Rattle.surface.specs.Rects.{Grown};
ghost use Rattle.raster.specs.Packing.{packed};
ghost use Rattle.pbm.specs.Bitmap.{octet};
ghost use Rattle.examples.specs.Pictures.{block, painted, rect};

use drawing::{Area, paint};
use ink::Solid;
use layers::{Meter, bounds_are_unique};
use pbm::write_row;
use pencil::Pencil;
use raster::Packed;
use surface::{Rect, Surface};

// The byte of row y in a PBM file of eight columns and four rows.
fn row_byte<S: Surface>(surface: &S, y: u32) -> u8
    requires wide { (S.means surface.now).width ≡ 8 }
    requires high { (S.means surface.now).height ≡ 4 }
    requires row { y < 4 }
    ensures { result ≡ octet (S.means surface.now) y 0 }
{
    let mut line = [0; 1];
    let _ = write_row(surface, y, &mut line);
    line[0]
}

// Paints with a meter on top, and gives its rectangle.
fn paint_metered<S: Surface>(surface: &mut S) -> Option<Rect>
    ensures picture { S.means surface.new ≡ painted (S.means surface.old) }
    ensures bounds { Grown None (λ x y. block x y && (S.means surface.old).opens x y) result }
    ensures rest { S.rest surface.new ≡ S.rest surface.old }
{
    let mut meter = Meter::new(surface);
    let area = Area {
        x: 1,
        y: 1,
        w: 3,
        h: 2,
    };
    let _ = paint(&mut meter, &Pencil::new(), area, 0xFF, &Solid(0));
    let bounds = meter.bounds();
    let _ = meter.into_below();
    bounds
}

// Paints a packed picture, and writes its rows; one by one, since what `map` asks of its closure, that y < 4, stays open.
fn paint_packed(memory: &mut [u8]) -> (Option<Rect>, [u8; 4])
    requires { length memory.old ≡ 4 }
    ensures picture { packed 8 4 memory.new ≡ painted (packed 8 4 memory.old) }
    ensures bounds { Grown None (λ x y. block x y && (packed 8 4 memory.old).opens x y) result.0 }
    ensures bytes { (k : ℕ) → slice_index memory.new k < 256 }
    ensures rows { result.1 ≡ map (λ y. octet (painted (packed 8 4 memory.old)) y 0) (0 ∷ 1 ∷ 2 ∷ 3 ∷ []) }
{
    let mut picture = Packed::new(memory, 8, 4);
    let bounds = paint_metered(&mut picture);
    let rows = [
        row_byte(&picture, 0),
        row_byte(&picture, 1),
        row_byte(&picture, 2),
        row_byte(&picture, 3),
    ];
    (bounds, rows)
}

// What a picture of one bit a cell comes to: its memory, the rectangle of the cells reached, and its rows in a PBM file.
#[derive(Drop)]
pub struct Painted {
    pub memory: [u8; 4],
    pub bounds: Option<Rect>,
    pub rows: [u8; 4],
}

// Eight columns and four rows, all 0, of which three columns and two rows from (1, 1) were painted.
pub fn paint_block() -> Painted
    ensures memory { result.memory ≡ 0x00 ∷ 0x70 ∷ 0x70 ∷ 0x00 ∷ [] }
    ensures bounds { result.bounds ≡ Some (rect 1 1 4 3) }
    ensures rows { result.rows ≡ 0xFF ∷ 0x8F ∷ 0x8F ∷ 0xFF ∷ [] }
{
    let mut memory = [0; 4];
    let (bounds, rows) = paint_packed(&mut memory);
    bounds_are_unique();
    Painted {
        memory,
        bounds,
        rows,
    }
}
