// Plays a sample on every raster and through piles of layers, and prints what must agree and a few pictures.
#![tactic(auto)]

mod looks;
mod pile;
mod playing;
mod trouble;

use looks::{plane_agrees, print_plane, say};
use pile::{draw_fenced, draw_lent, draw_metered, print_mirrored};
use playing::{HEIGHT, WIDTH, draw, parted, samples};
use raster::{Bytes, Packed, Planes};
use surface::same;
use trouble::Trouble;

// The three rasters: one drawing, plane by plane.
fn rasters(rt: &HostRuntime, sample: &[u8]) -> Result<(), Trouble> {
    let heap = rt.alloc();
    let mut memory = vec![in heap; 0u8; 16]?;
    let mut packed = Packed::new(&mut memory, WIDTH, HEIGHT);
    draw(sample, &mut packed, heap)?;
    rt.print("packed\n")?;
    print_plane(rt, &packed, 1)?;
    let mut memory = vec![in heap; 0u8; 128]?;
    let mut bytes = Bytes::new(&mut memory, WIDTH, HEIGHT);
    draw_metered(rt, sample, &mut bytes)?;
    rt.print("bytes, bit 6\n")?;
    print_plane(rt, &bytes, 64)?;
    let mut memory = vec![in heap; 0u8; 64]?;
    let mut planes = Planes::new(&mut memory, WIDTH, HEIGHT);
    draw(sample, &mut planes, heap)?;
    say(
        rt,
        "packed, plane 0 of bytes",
        plane_agrees(&packed, &bytes, 1),
    )?;
    say(
        rt,
        "packed, plane 0 of planes",
        plane_agrees(&packed, &planes, 1),
    )?;
    say(
        rt,
        "planes 0 to 3 of bytes, planes",
        plane_agrees(&bytes, &planes, 15),
    )?;
    say(rt, "bytes, planes", same(&bytes, &planes))?;
    let mut memory = vec![in heap; 0u8; 64]?;
    let below = Planes::new(&mut memory, WIDTH, HEIGHT);
    print_mirrored(rt, sample, below, &planes)
}

// A clip, and fences in its place.
fn fences(rt: &HostRuntime, sample: &[u8], clipped: &[u8]) -> Result<(), Trouble> {
    let heap = rt.alloc();
    let mut memory = vec![in heap; 0u8; 16]?;
    let mut packed = Packed::new(&mut memory, WIDTH, HEIGHT);
    draw(clipped, &mut packed, heap)?;
    rt.print("clipped\n")?;
    print_plane(rt, &packed, 1)?;
    let mut memory = vec![in heap; 0u8; 16]?;
    let below = Packed::new(&mut memory, WIDTH, HEIGHT);
    draw_fenced(rt, sample, below, &packed)?;
    let mut memory = vec![in heap; 0u8; 128]?;
    let mut bytes = Bytes::new(&mut memory, WIDTH, HEIGHT);
    draw_lent(rt, sample, &mut bytes, &packed)?;
    say(rt, "the lent bytes after", plane_agrees(&bytes, &packed, 1))
}

fn main(rt: HostRuntime) -> Result<(), Trouble> {
    let file = samples(&rt)?;
    let (sample, clipped) = parted(&file);
    rasters(&rt, sample)?;
    fences(&rt, sample, clipped)
}
