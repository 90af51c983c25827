ghost use Rattle.std.specs.Prelude.{◌≡◌, ℕ, ◌-◌, ◌<◌, ◌≤◌, Bool, List, length, ℤ, pos};
ghost use Rattle.surface.specs.Meaning.{Meaning, strip};
ghost use Rattle.raster.specs.Lawful.{Lawful};

use crate::size::Size;
use std::ops::Range;

// Shows that a raster makes a call. Only this crate can make one, so that the calls of `Storage` are a raster's alone, which knows that
// its memory is long enough and its cells are inside.
#[derive(Clone, Copy)]
pub(crate) struct Access(pub(crate) ());

// How the cells of a picture lie in a memory: where a raster finds its bits. Of this crate alone: its calls ask something of their caller,
// and no public function does.
pub(crate) trait Storage {
    // The bits of a cell.
    const DEPTH: u8;

    ghost DEPTH: { ℕ };

    // The bytes that a picture of a width and a height needs.
    ghost needed: { ℕ → ℕ → ℕ };

    // The picture of a size that a memory holds.
    ghost shows: { ℕ → ℕ → List ℕ → Meaning };

    // The units of a memory that are no cell's, each in its place.
    ghost spare: { ℕ → ℕ → List ℕ → ℕ → ℕ };

    // What a draw does to a memory: the cells of a region took a word.
    ghost Redraws: { ℕ → ℕ → List ℕ → (ℤ → ℤ → Bool) → ℕ → List ℕ → Type 0 };

    fn needed(size: Size) -> usize
        ensures { result ≡ needed size.width size.height };

    // The word of the cell in column x of row y. Memory and size side by side: a struct of both would be the raster again, which needs
    // the layout.
    fn word(by: Access, memory: &[u8], size: Size, x: usize, y: usize) -> u16
        requires memory { needed size.width size.height ≤ length memory.now }
        requires column { x < size.width }
        requires row { y < size.height }
        ensures { result ≡ (shows size.width size.height memory.now).word (pos x) (pos y) };

    // Gives the cell in column x of row y the word v, cut to the depth.
    fn set(by: Access, memory: &mut [u8], size: Size, x: usize, y: usize, v: u16)
        requires memory { needed size.width size.height ≤ length memory.old }
        requires column { x < size.width }
        requires row { y < size.height }
        ensures { Redraws size.width size.height memory.old (strip (pos x) (pos y) 1) v memory.new }
    {
        Self::fill(by, memory, size, x..x + 1, y, v);
    }

    // The same of each cell in some columns of row y.
    fn fill(by: Access, memory: &mut [u8], size: Size, columns: Range<usize>, y: usize, v: u16)
        requires memory { needed size.width size.height ≤ length memory.old }
        requires order { columns.start ≤ columns.end }
        requires columns { columns.end ≤ size.width }
        requires row { y < size.height }
        ensures { Redraws size.width size.height memory.old (strip (pos columns.start) (pos y) (columns.end - columns.start)) v memory.new };

    // What holds of every layout.
    ghost lawful: { Lawful DEPTH needed shows spare Redraws };
}

// A layout of a raster. What it does to a memory stands in Storage.
pub trait Layout: Storage {}
