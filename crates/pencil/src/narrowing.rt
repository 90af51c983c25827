ghost use Rattle.std.specs.Prelude.{◌≡◌};
ghost use Rattle.pencil.specs.Pencils.{with_clip};
ghost use Rattle.surface.specs.Rects.{overlap};

use crate::pencil_state::Pencil;
use surface::Rect;

// A pencil that is borrowed with its clip cut by a rectangle. Its end puts the earlier clip back.
pub struct Narrowing<'a> {
    pencil: &'a mut Pencil,
    earlier: Rect,
}

impl<'a> Narrowing<'a> {
    pub fn new(pencil: &'a mut Pencil, rect: Rect) -> Narrowing<'a>
        ensures pencil { result.pencil.now ≡ with_clip (overlap pencil.old.clip rect) pencil.old }
        ensures earlier { result.earlier ≡ pencil.old.clip }
        ensures lender { result.pencil.ghost_name ≡ pencil.entry.ghost_name }
    {
        let earlier = pencil.clip;
        pencil.cut_clip(rect);
        Narrowing { pencil, earlier }
    }

    // The narrowed pencil, to draw with.
    pub fn pencil(&self) -> &Pencil
        ensures { result.now ≡ self.now.pencil.now }
    {
        self.pencil
    }
}

impl Drop for Narrowing<'_> {
    fn drop(self)
        ensures { self.exit.0.now ≡ with_clip self.entry.earlier self.entry.pencil.now }
    {
        self.pencil.clip = self.earlier;
        let Narrowing {
            pencil: _,
            earlier: _,
        } = self;
    }
}
