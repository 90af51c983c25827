ghost use Rattle.std.specs.Prelude.{◌≡◌, ℕ, ◌<◌, [], ◌∷◌, length, pos, slice_index};
ghost use Rattle.surface.specs.Meaning.{strip};
ghost use Rattle.raster.specs.Planar.{PlanesDrawn};

use raster::Planes;
use surface::Surface;

// Sets the first of eight cells of four bits to 5.
fn set_first(memory: &mut [u8])
    requires { length memory.old ≡ 4 }
    ensures planes { PlanesDrawn 8 1 memory.old (strip (pos 0) (pos 0) 1) 5 memory.new }
    ensures bytes { (k : ℕ) → slice_index memory.new k < 256 }
{
    let mut surface = Planes::new(memory, 8, 1);
    surface.set(0, 0, 5);
}

// The memory of eight cells of four bits, all 0, once the first was set to 5.
pub fn set_in_planes() -> [u8; 4]
    ensures { result ≡ 0x80 ∷ 0x00 ∷ 0x80 ∷ 0x00 ∷ [] }
{
    let mut memory = [0; 4];
    set_first(&mut memory);
    memory
}
