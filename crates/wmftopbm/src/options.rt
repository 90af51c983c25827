use crate::failure::Failure;
use std::env;

// What the arguments ask for.
#[derive(Clone, Copy)]
pub(crate) enum Options {
    Play { trace: bool },
    Help,
}

impl Options {
    // The first argument that is `--help` or not known decides.
    pub(crate) fn parse(rt: &HostRuntime) -> Result<Options, Failure> {
        let mut trace = false;
        for argument in env::args(rt)?.skip(1) {
            match argument.as_str() {
                "--trace" => trace = true,
                "--help" => return Ok(Options::Help),
                _ => return Err(Failure::Usage),
            }
        }
        Ok(Options::Play { trace })
    }
}
