ghost use Rattle.std.specs.Prelude.{◌≡◌, Decides};
ghost use Rattle.surface.specs.Sameness.{Same, SameRow};

use crate::surface::Surface;

// Whether row y has the same words in two pictures of one width.
fn same_row<S: Surface, T: Surface>(a: &S, b: &T, y: i32) -> bool
    requires { (S.Surface.means a.now).width ≡ (T.Surface.means b.now).width }
    ensures { Decides result (SameRow (S.Surface.means a.now) (T.Surface.means b.now) y) }
{
    (0..i32::from(a.width())).all(|x| a.word(x, y) == b.word(x, y))
}

// Whether widths, heights and all words are alike.
pub fn same<S: Surface, T: Surface>(a: &S, b: &T) -> bool
    ensures { Decides result (Same (S.Surface.means a.now) (T.Surface.means b.now)) }
{
    a.width() == b.width()
        && a.height() == b.height()
        && (0..i32::from(a.height())).all(|y| same_row(a, b, y))
}
