use crate::trouble::Trouble;
use metafile::check;
use player::{play, start};
use std::alloc::Global;
use std::io::Read;
use surface::Surface;

pub(crate) const WIDTH: u32 = 16;

pub(crate) const HEIGHT: u32 = 8;

// The bytes of the first sample, which the second follows.
const FIRST: usize = 220;

// Both samples, from standard input. Read as wmftopbm reads its file: a crate under two programs would be longer than these lines.
pub(crate) fn samples(rt: &HostRuntime) -> Result<Vec<u8>, Trouble> {
    let mut file = Vec::new(rt.alloc());
    let _ = rt.stdin().take(4096).read_to_end(&mut file)?;
    Ok(file)
}

// The two samples.
pub(crate) fn parted(file: &[u8]) -> (&[u8], &[u8]) {
    file.split_at_checked(FIRST).unwrap_or((file, file))
}

// Plays a sample of which no record is refused or passed over.
pub(crate) fn draw<S: Surface>(
    sample: &[u8],
    surface: &mut S,
    heap: Global,
) -> Result<(), Trouble> {
    let checked = check(sample).map_err(|_| Trouble::Refused)?;
    let mut run = start(checked);
    let _ = play(&mut run, surface, heap)?;
    let counts = run.finish();
    if counts.refused == 0 && counts.passed_over == 0 {
        Ok(())
    } else {
        Err(Trouble::Refused)
    }
}
