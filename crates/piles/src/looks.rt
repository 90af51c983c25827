use crate::trouble::Trouble;
use surface::{Rect, Surface};

// Whether two pictures of one size agree in the bits of a mask.
pub(crate) fn plane_agrees<S: Surface, T: Surface>(a: &S, b: &T, mask: u16) -> bool {
    let agree = |x, y| a.word(x, y) & mask == b.word(x, y) & mask;
    a.width() == b.width()
        && a.height() == b.height()
        && (0..i32::from(a.height())).all(|y| (0..i32::from(a.width())).all(|x| agree(x, y)))
}

// The rows as text: # where a bit of the mask is set.
pub(crate) fn print_plane<S: Surface>(
    rt: &HostRuntime,
    surface: &S,
    mask: u16,
) -> Result<(), Trouble> {
    for y in 0..i32::from(surface.height()) {
        for x in 0..i32::from(surface.width()) {
            rt.print(if surface.word(x, y) & mask == 0 {
                "."
            } else {
                "#"
            })?;
        }
        rt.print("\n")?;
    }
    Ok(())
}

// A line: what was looked at, and whether it is so.
pub(crate) fn say(rt: &HostRuntime, what: &str, so: bool) -> Result<(), Trouble> {
    println!(rt; "{what}: {so}")?;
    Ok(())
}

// The rectangle that a meter keeps.
pub(crate) fn print_bounds(rt: &HostRuntime, bounds: Option<Rect>) -> Result<(), Trouble> {
    match bounds {
        None => println!(rt; "bounds none")?,
        Some(rect) => println!(rt; "bounds {rect}")?,
    }
    Ok(())
}
