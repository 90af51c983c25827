ghost use Rattle.std.specs.Prelude.{◌≡◌};
ghost use Rattle.raster.specs.PackedLaws.{packed-lawful};
ghost use Rattle.raster.specs.Packing.{stride, packed, packed_needs, packed_spare, PackedDrawn};

use crate::bits::{bit_at, fill_row, paint_in_byte};
use crate::layout::{Access, Layout, Storage};
use crate::raster::Raster;
use crate::size::Size;
use std::ops::Range;

// One bit a cell: each row has whole bytes, the highest bit leftmost.
pub struct OneBit;

// A surface of depth 1 over a caller's memory.
pub type Packed<'a> = Raster<'a, OneBit>;

// The bytes of a row.
pub(crate) fn pitch(width: u16) -> usize
    ensures { result ≡ stride width }
{
    usize::from(width).div_ceil(8)
}

impl Storage for OneBit {
    const DEPTH: u8 = 1;

    ghost DEPTH = { 1 };

    ghost needed = { packed_needs };

    ghost shows = { packed };

    // The padding of the rows, and the memory behind the picture.
    ghost spare = { packed_spare };

    ghost Redraws = { PackedDrawn };

    ghost lawful = { packed-lawful };

    fn needed(size: Size) -> usize {
        usize::from(size.height) * pitch(size.width)
    }

    fn word(_by: Access, memory: &[u8], size: Size, x: usize, y: usize) -> u16 {
        let start = y * pitch(size.width);
        bit_at(memory, 8 * start + x)
    }

    // One byte is written, without the cases of a fill.
    fn set(_by: Access, memory: &mut [u8], size: Size, x: usize, y: usize, v: u16) {
        let start = y * pitch(size.width);
        paint_in_byte(memory, start + x / 8, x % 8..x % 8 + 1, v % 2 == 1);
    }

    fn fill(_by: Access, memory: &mut [u8], size: Size, columns: Range<usize>, y: usize, v: u16) {
        let row = pitch(size.width);
        fill_row(memory, y * row, row, columns, v % 2 == 1);
    }
}

impl Layout for OneBit {}
