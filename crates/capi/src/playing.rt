ghost use Rattle.std.specs.Prelude.{◌≡◌, length};
ghost use Rattle.raster.specs.Layout.{fitting};
ghost use Rattle.capi.specs.Playing.{reported, Reported, Played, Checks};

use crate::listening::play_listening;
use crate::report::{Fault, Report};
use metafile::{Checked, check};
use player::start;
use raster::{Layout, Raster};
use surface::Surface;

// Plays a checked file on a surface until it stops. Counts go by `as`, since a `u64` has no From<usize>.
fn play_on<S: Surface>(checked: Checked<'_>, surface: &mut S) -> Report
    ensures { Reported S.means S.keeps S.rest checked.entry.bytes.now checked.entry.first checked.entry.objects surface.old result surface.new }
{
    let mut run = start(checked);
    let heard = play_listening(&mut run, surface);
    let counts = run.finish();
    Report {
        stop: heard.last.err().map_or(Fault::NONE, Fault::from),
        first: heard.first.map_or(Fault::NONE, Fault::from),
        taken: counts.taken as u64,
        refused: counts.refused as u64,
        passed_over: counts.passed_over as u64,
    }
}

// Plays a file on a picture that fits, or tells what kept it from playing.
fn try_playing<L: Layout>(
    file: &[u8],
    memory: &mut [u8],
    width: u32,
    height: u32,
) -> Result<Report, Fault>
    ensures { Played (L.shows width height) (L.spare width height) (fitting width height (L.needed width height) (length memory.old)) file.now memory.old (reported result) memory.new }
{
    Raster::<L>::fits(memory, width, height)?;
    let checked = check(file)?;
    let mut surface = Raster::<L>::new(memory, width, height);
    Ok(play_on(checked, &mut surface))
}

// Checks a file.
pub fn check_file(file: &[u8]) -> Report
    ensures { Checks file.now result }
{
    match check(file) {
        Ok(_) => Report::unplayed(Fault::NONE),
        Err(fault) => Report::unplayed(fault.into()),
    }
}

// Plays a file on a picture in the layout L.
pub fn play_file<L: Layout>(file: &[u8], memory: &mut [u8], width: u32, height: u32) -> Report
    ensures { Played (L.shows width height) (L.spare width height) (fitting width height (L.needed width height) (length memory.old)) file.now memory.old result memory.new }
{
    try_playing::<L>(file, memory, width, height).unwrap_or_else(Report::unplayed)
}
