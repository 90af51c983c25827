ghost use Rattle.std.specs.Prelude.{◌≡◌, ℕ, ◌<◌, ◌≤◌, false, ℤ, pos, MatchOption};
ghost use Rattle.surface.specs.Meaning.{spans};
ghost use Rattle.raster.specs.Bits.{among};

use std::ops::Range;

// The column or row i of a side, if it is one.
pub(crate) fn place(i: i32, side: u16) -> Option<usize>
    ensures { MatchOption result (spans (pos 0) side i ≡ false) (λ k. (i ≡ pos k) × (k < side)) }
{
    let k = usize::try_from(i).ok()?;
    (k < usize::from(side)).then_some(k)
}

// Which of the columns 0..width are among the n from x on.
pub(crate) fn clip(x: i32, n: u16, width: u16) -> Range<usize>
    ensures order { result.start ≤ result.end }
    ensures inside { result.end ≤ width }
    ensures same { (k : ℕ) → k < width → spans x n (pos k) ≡ among result.start result.end k }
{
    let width = i64::from(width);
    let from = i64::from(x).clamp(0, width);
    let to = (i64::from(x) + i64::from(n)).clamp(0, width);
    from as usize..to as usize
}
