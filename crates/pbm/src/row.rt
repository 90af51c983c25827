ghost use Rattle.std.specs.Prelude.{◌≡◌, ◌+◌, ◌/◌, ◌^◌, ◌<◌, ◌&&◌, length, nat_lt};
ghost use Rattle.pbm.specs.Bitmap.{celled, pixel, octet, row, answer, Wrote};

use codes::Refusal;
use surface::Surface;

// The bit of column x in row y.
fn pixel<S: Surface>(surface: &S, x: usize, y: u32) -> u8
    requires left { x < 2 ^ 16 }
    requires high { y < 2 ^ 16 }
    ensures { result ≡ pixel (S.means surface.now) y x }
{
    if x < usize::from(surface.width()) {
        1 - (surface.word(x as i32, y as i32) % 2) as u8
    } else {
        0
    }
}

// Byte i of row y. No fold: its closure would have to state how large the byte is after each bit.
fn octet<S: Surface>(surface: &S, i: usize, y: u32) -> u8
    requires left { i < 2 ^ 12 }
    requires high { y < 2 ^ 16 }
    ensures { result ≡ octet (S.means surface.now) y i }
{
    let mut byte = 0;
    for k in 0..8 {
        byte = 2 * byte + pixel(surface, 8 * i + k, y);
    }
    byte
}

// Writes row y of a raw PBM file to the front of a buffer, and gives the number of its bytes.
// A row outside the picture and a buffer that is too short are refused: the buffer then stays as it was.
pub fn write_row<S: Surface>(surface: &S, y: u32, out: &mut [u8]) -> Result<usize, Refusal>
    ensures answer { result ≡ answer (celled (S.means surface.now) && nat_lt y (S.means surface.now).height) (((S.means surface.now).width + 7) / 8) (length out.old) }
    ensures buffer { Wrote (row (S.means surface.now) y) out.old out.new result }
{
    if y >= u32::from(surface.height()) {
        return Err(Refusal::Row);
    }
    let count = (usize::from(surface.width()) + 7) / 8;
    if out.len() < count {
        return Err(Refusal::Buffer);
    }
    let front = &mut out[..count];
    for (i, byte) in front.iter_mut().enumerate() {
        *byte = octet(surface, i, y);
    }
    Ok(count)
}
