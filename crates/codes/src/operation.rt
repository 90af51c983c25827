ghost use Rattle.std.specs.Prelude.{◌≡◌};
ghost use Rattle.codes.specs.Operations.{combined, sourced, pictured, OperationPlanes, ModePlanes};

use crate::mux::{choose, spread};

// The ternary raster operation `code` of the pattern's word, the source's and the picture's. Each of the 256 codes is one,
// a truth table of three bits, so that an enum would say no more than the byte.
pub fn combine(code: u8, pattern: u16, source: u16, picture: u16) -> u16
    ensures { result ≡ combined code pattern source picture }
{
    let neither = choose(pattern, spread(code, 4), spread(code, 0));
    let picture_only = choose(pattern, spread(code, 5), spread(code, 1));
    let source_only = choose(pattern, spread(code, 6), spread(code, 2));
    let both = choose(pattern, spread(code, 7), spread(code, 3));
    choose(
        source,
        choose(picture, both, source_only),
        choose(picture, picture_only, neither),
    )
}

// Whether a source's bit can change what the raster operation gives. No function shared with the next: it would be called
// with a shift and a mask, and be longer than the two lines.
pub fn depends_on_source(code: u8) -> bool
    ensures { result ≡ sourced code }
{
    ((code >> 2) ^ code) & 0x33 != 0
}

// Whether a picture's bit can change what the raster operation gives.
pub fn depends_on_picture(code: u8) -> bool
    ensures { result ≡ pictured code }
{
    ((code >> 1) ^ code) & 0x55 != 0
}

// Raster operations and line modes act on each bit plane alone.
pub fn operation_laws()
    ensures operations { OperationPlanes }
    ensures modes { ModePlanes }
{}
