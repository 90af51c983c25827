// The player as a static library for C: one export for each function that C calls, since C has no generic one. What C passes, and the
// number that it is answered, are as its header declares them.
#![tactic(auto)]

ghost use Rattle.std.specs.Prelude.{◌≡◌, ◌*◌, length};
ghost use Rattle.raster.specs.Layout.{fitting};
ghost use Rattle.raster.specs.Bytewise.{bytewise, bytes_spare};
ghost use Rattle.raster.specs.Packing.{packed, packed_spare, stride};
ghost use Rattle.raster.specs.Planar.{planar, planes_spare};
ghost use Rattle.capi.specs.Playing.{Played, Checks};

use capi::{Report, check_file, play_file};
use raster::{FourPlanes, OneBit, OneByte};

// Checks a file: 0, or the number of its fault.
#[unsafe(no_mangle)]
pub extern "C" fn dierwolp_check(file: &[u8], report: &mut Report) -> u32
    ensures report { Checks file.now report.new }
    ensures number { result ≡ report.new.stop.number }
{
    check_file(file).tell(report)
}

// Plays a file on a packed picture: 0 where it ended, or the number of what kept it from playing or stopped it.
#[unsafe(no_mangle)]
pub extern "C" fn dierwolp_play_packed(
    file: &[u8],
    memory: &mut [u8],
    width: u32,
    height: u32,
    report: &mut Report,
) -> u32
    ensures played { Played (packed width height) (packed_spare width height) (fitting width height (height * stride width) (length memory.old)) file.now memory.old report.new memory.new }
    ensures number { result ≡ report.new.stop.number }
{
    play_file::<OneBit>(file, memory, width, height).tell(report)
}

// Plays a file on a picture of one byte a cell: 0 where it ended, or the number of what kept it from playing or stopped it.
#[unsafe(no_mangle)]
pub extern "C" fn dierwolp_play_bytes(
    file: &[u8],
    memory: &mut [u8],
    width: u32,
    height: u32,
    report: &mut Report,
) -> u32
    ensures played { Played (bytewise width height) (bytes_spare width height) (fitting width height (height * width) (length memory.old)) file.now memory.old report.new memory.new }
    ensures number { result ≡ report.new.stop.number }
{
    play_file::<OneByte>(file, memory, width, height).tell(report)
}

// Plays a file on a picture of four planes: 0 where it ended, or the number of what kept it from playing or stopped it.
#[unsafe(no_mangle)]
pub extern "C" fn dierwolp_play_planes(
    file: &[u8],
    memory: &mut [u8],
    width: u32,
    height: u32,
    report: &mut Report,
) -> u32
    ensures played { Played (planar width height) (planes_spare width height) (fitting width height (4 * (height * stride width)) (length memory.old)) file.now memory.old report.new memory.new }
    ensures number { result ≡ report.new.stop.number }
{
    play_file::<FourPlanes>(file, memory, width, height).tell(report)
}
