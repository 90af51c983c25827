ghost use Rattle.layers.specs.Bounds.{OneSmallest};
ghost use Rattle.layers.specs.Layers.{BelowFence, BelowMirror, MirrorOfMirror};

// What a surface keeps of the cells reached is decided by what it kept before and by those cells.
pub fn bounds_are_unique()
    ensures { OneSmallest }
{}

// What was drawn through a fence is drawn below, at the cells of the fence.
pub fn fence_passes_down()
    ensures { BelowFence }
{}

// What was drawn through a mirror is drawn below, turned.
pub fn mirror_passes_down()
    ensures { BelowMirror }
{}

// A mirror of a mirror means what lies below both.
pub fn mirror_undoes_mirror()
    ensures { MirrorOfMirror }
{}
