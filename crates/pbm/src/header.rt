ghost use Rattle.std.specs.Prelude.{◌≡◌, [], ◌∷◌, ◌++◌, length, decimal};
ghost use Rattle.pbm.specs.Bitmap.{header, celled, answer, Wrote};

use arrayvec::ArrayString;
use codes::Refusal;
use itoa::Buffer;
use surface::Surface;

// The width, a space, the height and a line feed.
fn sides(width: u16, height: u16) -> ArrayString<12>
    ensures { result.bytes ≡ decimal width ++ ((32 ∷ []) ++ (decimal height ++ (10 ∷ []))) }
{
    let mut digits = Buffer::new();
    let mut text = ArrayString::new();
    text.push_str(digits.format(width));
    text.push(' ');
    text.push_str(digits.format(height));
    text.push('\n');
    text
}

// Writes the header of a raw PBM file to the front of a buffer, and gives the number of its bytes.
// A picture without cells has none, and a buffer that is too short is refused: it then stays as it was.
#[tactic(auto, unfolding(crate::specs::Bitmap::header))]
pub fn write_header<S: Surface>(surface: &S, out: &mut [u8]) -> Result<usize, Refusal>
    ensures answer { result ≡ answer (celled (S.means surface.now)) (length (header (S.means surface.now).width (S.means surface.now).height)) (length out.old) }
    ensures buffer { Wrote (header (S.means surface.now).width (S.means surface.now).height) out.old out.new result }
{
    let width = surface.width();
    let height = surface.height();
    if width == 0 || height == 0 {
        return Err(Refusal::Row);
    }
    let sides = sides(width, height);
    let count = 3 + sides.len();
    if out.len() < count {
        return Err(Refusal::Buffer);
    }
    out[..3].copy_from_slice(b"P4\n");
    out[3..count].copy_from_slice(sides.as_str().as_bytes());
    Ok(count)
}
