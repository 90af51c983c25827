ghost use Rattle.raster.specs.Bytewise.{bytewise, bytewise_needs, bytes_spare, BytesDrawn};
ghost use Rattle.raster.specs.BytewiseLaws.{bytewise-lawful};

use crate::layout::{Access, Layout, Storage};
use crate::raster::Raster;
use crate::size::Size;
use std::ops::Range;

// A byte a cell, row after row.
pub struct OneByte;

// A surface of depth 8 over a caller's memory.
pub type Bytes<'a> = Raster<'a, OneByte>;

impl Storage for OneByte {
    const DEPTH: u8 = 8;

    ghost DEPTH = { 8 };

    ghost needed = { bytewise_needs };

    ghost shows = { bytewise };

    // The memory behind the picture.
    ghost spare = { bytes_spare };

    ghost Redraws = { BytesDrawn };

    ghost lawful = { bytewise-lawful };

    fn needed(size: Size) -> usize {
        usize::from(size.height) * usize::from(size.width)
    }

    fn word(_by: Access, memory: &[u8], size: Size, x: usize, y: usize) -> u16 {
        u16::from(memory[y * usize::from(size.width) + x])
    }

    fn fill(_by: Access, memory: &mut [u8], size: Size, columns: Range<usize>, y: usize, v: u16) {
        let start = y * usize::from(size.width);
        memory[start + columns.start..start + columns.end].fill((v % 256) as u8);
    }
}

impl Layout for OneByte {}
