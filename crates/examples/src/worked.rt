ghost use Rattle.examples.specs.Worked.{Examples};

use crate::copying::{copy_left, copy_right};
use crate::painting::{Painted, paint_block};
use crate::setting::set_in_planes;
use crate::tracing::{line_gently, line_with_ties};
use codes::{LineMode, combine};

// What the calls of the examples gave.
#[derive(Drop)]
pub struct Worked {
    pub all_rows: u16,
    pub exclusive: u16,
    pub line_exclusive: u16,
    pub gentle: [u8; 3],
    pub tied: [u8; 3],
    pub painted: Painted,
    pub copied_right: [u8; 5],
    pub copied_left: [u8; 5],
    pub planes: [u8; 4],
}

// The worked examples: raster operations, line modes, lines, and drawings on three layouts of memory.
pub fn worked_examples() -> Worked
    ensures { Examples result }
{
    Worked {
        all_rows: combine(0xB8, 0xF0, 0xCC, 0xAA),
        exclusive: combine(0x66, 0, 5, 3),
        line_exclusive: LineMode::XorPen.mix(12, 10),
        gentle: line_gently(),
        tied: line_with_ties(),
        painted: paint_block(),
        copied_right: copy_right(),
        copied_left: copy_left(),
        planes: set_in_planes(),
    }
}
