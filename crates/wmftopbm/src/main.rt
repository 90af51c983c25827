// Plays a Windows metafile on a one-bit picture of 576 x 400 cells, and writes the picture as a PBM.
#![tactic(auto)]

mod failure;
mod options;
mod picture;
mod report;

use calls::play_whole;
use failure::Failure;
use metafile::check;
use options::Options;
use picture::{BYTES, HEIGHT, WIDTH, write_picture};
use player::{StepFault, start};
use raster::Packed;
use report::{USAGE, tell};
use std::io;
use std::io::Read;
use std::process::ExitCode;

// A file may have so many bytes, and one more is read to know a longer one.
const MOST: u64 = 65537;

fn read_file(rt: &HostRuntime) -> io::Result<Vec<u8>> {
    let mut file = Vec::new(rt.alloc());
    let _ = rt.stdin().take(MOST).read_to_end(&mut file)?;
    Ok(file)
}

fn convert(rt: &HostRuntime, trace: bool) -> Result<(), Failure> {
    let heap = rt.alloc();
    let file = read_file(rt)?;
    let checked = check(&file).map_err(StepFault::from)?;
    let mut memory = vec![in heap; 0u8; BYTES]?;
    let mut surface = Packed::new(&mut memory, WIDTH, HEIGHT);
    let mut run = start(checked);
    let steps = play_whole(&mut run, &mut surface, heap)?;
    let counts = run.finish();
    write_picture(rt, &surface)?;
    tell(rt, checked, &steps, counts, trace)?;
    Ok(())
}

fn run(rt: &HostRuntime) -> Result<(), Failure> {
    match Options::parse(rt)? {
        Options::Play { trace } => convert(rt, trace),
        Options::Help => {
            println!(rt; "{USAGE}")?;
            Ok(())
        }
    }
}

fn main(rt: HostRuntime) -> ExitCode {
    match run(&rt) {
        Ok(()) => ExitCode::SUCCESS,
        Err(failure) => {
            // Where standard error can't be written either, the status alone tells.
            let _ = eprintln!(rt; "{failure}");
            ExitCode::FAILURE
        }
    }
}
