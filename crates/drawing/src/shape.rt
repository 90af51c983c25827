ghost use Rattle.std.specs.Prelude.{◌≡◌, ◌&&◌};
ghost use Rattle.drawing.specs.Areas.{coordinate, extent, placed, ranged};

// A cell, by its column and row.
#[derive(Clone, Copy)]
pub struct Point {
    pub x: i32,
    pub y: i32,
}

impl Point {
    // Whether both coordinates may be given directly.
    pub fn in_range(self) -> bool
        ensures { result ≡ placed self }
    {
        is_coordinate(self.x) && is_coordinate(self.y)
    }
}

// The cells of w columns from x rightwards and h rows from y downwards.
#[derive(Clone, Copy)]
pub struct Area {
    pub x: i32,
    pub y: i32,
    pub w: i32,
    pub h: i32,
}

impl Area {
    // Whether corner and size may be given directly.
    pub fn in_range(self) -> bool
        ensures { result ≡ ranged self }
    {
        let corner = Point {
            x: self.x,
            y: self.y,
        };
        corner.in_range() && are_extents(self.w, self.h)
    }
}

fn is_coordinate(z: i32) -> bool
    ensures { result ≡ coordinate z }
{
    (-131072..131072).contains(&z)
}

fn are_extents(w: i32, h: i32) -> bool
    ensures { result ≡ (extent w && extent h) }
{
    (0..32768).contains(&w) && (0..32768).contains(&h)
}
