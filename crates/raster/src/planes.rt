ghost use Rattle.std.specs.Prelude.{◌≡◌, ◌+◌, ◌*◌, ◌^◌, ◌<◌, ◌≤◌, length};
ghost use Rattle.raster.specs.PlanarLaws.{planar-lawful};
ghost use Rattle.raster.specs.Planar.{four, planar, planar_needs, planes_spare, PlanesDrawn};

use crate::bits::{bit_at, fill_row};
use crate::layout::{Access, Layout, Storage};
use crate::packed::{OneBit, pitch};
use crate::raster::Raster;
use crate::size::Size;
use std::ops::Range;

// Four bits a cell: four packed pictures one after another, the lowest bit first.
pub struct FourPlanes;

// A surface of depth 4 over a caller's memory.
pub type Planes<'a> = Raster<'a, FourPlanes>;

// Bit i of each of four planes.
fn four_bits(memory: &[u8], plane: usize, i: usize) -> u16
    requires planes { 4 * plane ≤ length memory.now }
    requires small { plane ≤ 2 ^ 32 }
    requires inside { i < 8 * plane }
    ensures { result ≡ four (8 * plane) memory.now i }
{
    let bits = 8 * plane;
    bit_at(memory, i)
        + 2 * bit_at(memory, bits + i)
        + 4 * bit_at(memory, 2 * bits + i)
        + 8 * bit_at(memory, 3 * bits + i)
}

impl Storage for FourPlanes {
    const DEPTH: u8 = 4;

    ghost DEPTH = { 4 };

    ghost needed = { planar_needs };

    ghost shows = { planar };

    // The padding of the planes' rows, and the memory behind the planes.
    ghost spare = { planes_spare };

    ghost Redraws = { PlanesDrawn };

    ghost lawful = { planar-lawful };

    fn needed(size: Size) -> usize {
        4 * OneBit::needed(size)
    }

    fn word(_by: Access, memory: &[u8], size: Size, x: usize, y: usize) -> u16 {
        let start = y * pitch(size.width);
        four_bits(memory, OneBit::needed(size), 8 * start + x)
    }

    fn fill(_by: Access, memory: &mut [u8], size: Size, columns: Range<usize>, y: usize, v: u16) {
        let plane = OneBit::needed(size);
        let row = pitch(size.width);
        // By index: after a loop over `chunks_exact_mut` a proof knows the length of the memory, and no byte.
        for k in 0..4 {
            fill_row(
                memory,
                k * plane + y * row,
                row,
                columns.start..columns.end,
                (v >> k) % 2 == 1,
            );
        }
    }
}

impl Layout for FourPlanes {}
