use crate::looks::{plane_agrees, print_bounds, print_plane, say};
use crate::playing::draw;
use crate::trouble::Trouble;
use layers::{Fence, Meter, Mirror};
use surface::{Rect, Surface, same};

// The rectangle that the second sample clips by before it draws what the first draws.
const CLIP: Rect = Rect {
    left: 3,
    top: 1,
    right: 13,
    bottom: 7,
};

// Draws on a lent surface through a meter, and prints its bounds.
pub(crate) fn draw_metered<S: Surface>(
    rt: &HostRuntime,
    sample: &[u8],
    surface: &mut S,
) -> Result<(), Trouble> {
    let mut meter = Meter::new(surface);
    draw(sample, &mut meter, rt.alloc())?;
    print_bounds(rt, meter.bounds())
}

// Draws through three layers, which must show what a clipped drawing shows; below the mirror it is turned.
pub(crate) fn draw_fenced<S: Surface + Drop, T: Surface>(
    rt: &HostRuntime,
    sample: &[u8],
    below: S,
    clipped: &T,
) -> Result<(), Trouble> {
    let mut pile = Meter::new(Fence::new(Mirror::new(below), CLIP));
    draw(sample, &mut pile, rt.alloc())?;
    say(rt, "meter, fence, mirror, packed", same(&pile, clipped))?;
    print_bounds(rt, pile.bounds())?;
    let below = pile.into_below().into_below().into_below();
    rt.print("below the mirror\n")?;
    print_plane(rt, &below, 1)?;
    say(rt, "the same below", same(&below, clipped))
}

// Draws on a lent surface through three layers.
pub(crate) fn draw_lent<S: Surface, T: Surface>(
    rt: &HostRuntime,
    sample: &[u8],
    below: &mut S,
    clipped: &T,
) -> Result<(), Trouble> {
    let mut pile = Fence::new(Mirror::new(Mirror::new(below)), CLIP);
    draw(sample, &mut pile, rt.alloc())?;
    let agrees = plane_agrees(&pile, clipped, 1);
    say(rt, "fence, mirror, mirror, lent bytes", agrees)
}

// Draws on a surface: in two mirrors it shows what another shows after the same drawing, and in one it does not.
pub(crate) fn print_mirrored<S: Surface + Drop, T: Surface>(
    rt: &HostRuntime,
    sample: &[u8],
    mut below: S,
    drawn: &T,
) -> Result<(), Trouble> {
    draw(sample, &mut below, rt.alloc())?;
    let mirror = Mirror::new(below);
    say(rt, "in a mirror", same(&mirror, drawn))?;
    let mirror = Mirror::new(mirror);
    say(rt, "in two mirrors", same(&mirror, drawn))
}
