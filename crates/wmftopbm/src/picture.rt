use crate::failure::Failure;
use pbm::{write_header, write_row};
use std::io::Write;
use surface::Surface;

pub(crate) const WIDTH: u32 = 576;

pub(crate) const HEIGHT: u32 = 400;

// The bytes of the packed picture.
pub(crate) const BYTES: usize = 28800;

// The bytes of a header or of the longest row.
const LINE: usize = 512;

// Writes the PBM of a picture to standard output.
pub(crate) fn write_picture<S: Surface>(rt: &HostRuntime, surface: &S) -> Result<(), Failure> {
    let mut out = Vec::with_capacity(rt.alloc(), BYTES + 16)?;
    let mut line = [0u8; LINE];
    if let Ok(n) = write_header(surface, &mut line) {
        out.extend_from_slice(&line[..n])?;
    }
    for y in 0..u32::from(surface.height()) {
        if let Ok(n) = write_row(surface, y, &mut line) {
            out.extend_from_slice(&line[..n])?;
        }
    }
    rt.stdout().write_all(&out)?;
    Ok(())
}
