ghost use Rattle.std.specs.Prelude.{◌≡◌, ℕ, ◌<◌, ◌≤◌, true, false, ◌&&◌, length, ℤ, pos, if◌then◌else◌, MatchOption, MatchResult};
ghost use Rattle.surface.specs.Meaning.{inside, strip, filled};
ghost use Rattle.surface.specs.Rects.{Kept};
ghost use Rattle.surface.specs.Rects.Keep.{nothing};
ghost use Rattle.raster.specs.Laid.{sides, frame_stays};
ghost use Rattle.raster.specs.Layout.{fit, fitting, Untouched, rest_of};

use crate::cells::{clip, place};
use crate::layout::{Access, Layout};
use crate::size::Size;
use codes::Refusal;
use std::marker::PhantomData;
use surface::Surface;

// A surface over a caller's memory, whose cells lie in it as a layout says.
#[derive(Drop)]
pub struct Raster<'a, L: Layout> {
    memory: &'a mut [u8],
    size: Size,
    layout: PhantomData<L>,
    // The memory has place for the picture.
    ghost roomy: { L.needed size.width size.height ≤ length memory.now },
}

impl<'a, L: Layout> Raster<'a, L> {
    // The size of a picture that a memory has place for. Memory, width and height stand side by side in three calls: they are the caller's,
    // and a size is made of them here.
    fn size_in(memory: &[u8], width: u32, height: u32) -> Result<Size, Refusal>
        ensures { MatchResult result (λ s. (s.width ≡ width) × (s.height ≡ height) × (fit width height (L.needed width height) (length memory.now) ≡ true)) (λ e. (fitting width height (L.needed width height) (length memory.now) ≡ Err e) × (fit width height (L.needed width height) (length memory.now) ≡ false)) }
    {
        let size = Size::new(width, height).ok_or(Refusal::Size)?;
        if memory.len() < L::needed(size) {
            return Err(Refusal::Memory);
        }
        Ok(size)
    }

    // Whether a picture may have this size, and a memory has place for it.
    pub fn fits(memory: &[u8], width: u32, height: u32) -> Result<(), Refusal>
        ensures { result ≡ fitting width height (L.needed width height) (length memory.now) }
    {
        Self::size_in(memory, width, height)?;
        Ok(())
    }

    // The surface over a memory, or one without cells where fits refuses.
    pub fn new(memory: &'a mut [u8], width: u32, height: u32) -> Raster<'a, L>
        ensures width { result.size.width ≡ (if fit width height (L.needed width height) (length memory.old) then width else 0) }
        ensures height { result.size.height ≡ (if fit width height (L.needed width height) (length memory.old) then height else 0) }
        ensures same { result.memory.now ≡ memory.old }
        ensures lender { result.memory.ghost_name ≡ memory.entry.ghost_name }
        ensures all_open { (x y : ℤ) → (L.shows result.size.width result.size.height result.memory.now).opens x y ≡ inside result.size.width result.size.height x y }
    {
        let size = Self::size_in(memory, width, height).unwrap_or(Size {
            width: 0,
            height: 0,
        });
        Raster {
            memory,
            size,
            layout: PhantomData,
        }
    }

    // The bytes of the picture, and what is behind them.
    pub fn memory(&self) -> &[u8]
        ensures { result.now ≡ self.now.memory.now }
    {
        &self.memory[..]
    }

    // The column and the row of a cell, if it is one of the picture's.
    fn cell(&self, x: i32, y: i32) -> Option<(usize, usize)>
        ensures { MatchOption result (inside self.now.size.width self.now.size.height x y ≡ false) (λ c. (x ≡ pos c.0) × (c.0 < self.now.size.width) × (y ≡ pos c.1) × (c.1 < self.now.size.height)) }
    {
        // The row first: the other way round copies took a fifth longer.
        let y = place(y, self.size.height)?;
        let x = place(x, self.size.width)?;
        Some((x, y))
    }
}

impl<L: Layout> Surface for Raster<'_, L> {
    ghost means = { λ s. L.shows s.size.width s.size.height s.memory.now };

    ghost keeps = { λ _. nothing };

    // The units that are no cell's stay, and the lender too.
    ghost Rest = { Untouched };

    ghost rest = { λ s. rest_of L.spare s.size.width s.size.height s.memory.now s.memory.ghost_name };

    ghost stays = { λ s t e. frame_stays L.lawful s.size.width s.size.height t.size.width t.size.height s.memory.now t.memory.now s.memory.ghost_name t.memory.ghost_name s.roomy t.roomy e };

    ghost sound = { λ s. L.lawful.sound s.size.width s.size.height s.memory.now (sides s.size) };

    fn width(&self) -> u16 {
        self.size.width
    }

    fn height(&self) -> u16 {
        self.size.height
    }

    fn depth(&self) -> u8 {
        L::DEPTH
    }

    fn word(&self, x: i32, y: i32) -> u16 {
        match self.cell(x, y) {
            Some((x, y)) => L::word(Access(()), self.memory, self.size, x, y),
            None => 0,
        }
    }

    fn is_open(&self, x: i32, y: i32) -> bool {
        self.cell(x, y).is_some()
    }

    fn set(&mut self, x: i32, y: i32, v: u16)
        ensures picture { L.shows self.new.size.width self.new.size.height self.new.memory.now ≡ filled x y 1 v (L.shows self.old.size.width self.old.size.height self.old.memory.now) }
        ensures kept { Kept nothing (λ a b. strip x y 1 a b && (L.shows self.old.size.width self.old.size.height self.old.memory.now).opens a b) nothing }
        ensures rest { rest_of L.spare self.new.size.width self.new.size.height self.new.memory.now self.new.memory.ghost_name ≡ rest_of L.spare self.old.size.width self.old.size.height self.old.memory.now self.old.memory.ghost_name }
        ensures memory { L.Redraws self.old.size.width self.old.size.height self.old.memory.now (strip x y 1) v self.new.memory.now }
        ensures lender { self.new.memory.ghost_name ≡ self.old.memory.ghost_name }
    {
        if let Some((x, y)) = self.cell(x, y) {
            L::set(Access(()), self.memory, self.size, x, y, v);
        }
    }

    fn fill(&mut self, x: i32, y: i32, n: u16, v: u16)
        ensures picture { L.shows self.new.size.width self.new.size.height self.new.memory.now ≡ filled x y n v (L.shows self.old.size.width self.old.size.height self.old.memory.now) }
        ensures kept { Kept nothing (λ a b. strip x y n a b && (L.shows self.old.size.width self.old.size.height self.old.memory.now).opens a b) nothing }
        ensures rest { rest_of L.spare self.new.size.width self.new.size.height self.new.memory.now self.new.memory.ghost_name ≡ rest_of L.spare self.old.size.width self.old.size.height self.old.memory.now self.old.memory.ghost_name }
        ensures memory { L.Redraws self.old.size.width self.old.size.height self.old.memory.now (strip x y n) v self.new.memory.now }
        ensures lender { self.new.memory.ghost_name ≡ self.old.memory.ghost_name }
    {
        let columns = clip(x, n, self.size.width);
        if let Some(y) = place(y, self.size.height) {
            L::fill(Access(()), self.memory, self.size, columns, y, v);
        }
    }
}
