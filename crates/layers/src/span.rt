ghost use Rattle.std.specs.Prelude.{◌≡◌, ◌&&◌, ℤ, pos, ◌+ℤ◌, ◌≤ℤ◌, int_le, int_lt};
ghost use Rattle.surface.specs.Meaning.{spans};

// The count numbers from start upwards. No Range: a fill takes a start and a count, and would have to cast back.
#[derive(Clone, Copy)]
pub struct Span {
    pub start: i32,
    pub count: u16,
}

// The part of the n numbers from x upwards that lies in low..high.
pub fn cut(x: i32, n: u16, low: i32, high: i32) -> Span
    ensures cells { (z : ℤ) → spans result.start result.count z ≡ (spans x n z && (int_le low z && int_lt z high)) }
    ensures from { low ≤ℤ result.start }
    ensures to { low ≤ℤ high → (result.start +ℤ pos result.count) ≤ℤ high }
{
    let start = x.max(low);
    let end = x.saturating_add(i32::from(n)).min(high);
    if start < end {
        Span {
            start,
            count: (end - start) as u16,
        }
    } else {
        Span {
            start: low,
            count: 0,
        }
    }
}
