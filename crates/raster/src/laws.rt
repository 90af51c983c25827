ghost use Rattle.raster.specs.Laws.{PackedWhole, BytewiseWhole, PlanarWhole};

// Two memories with one picture and one rest hold the same bits and bytes.
pub fn memory_laws()
    ensures packed { PackedWhole }
    ensures bytes { BytewiseWhole }
    ensures planes { PlanarWhole }
{}
