ghost use Rattle.std.specs.Prelude.{◌≡◌, ℕ, ℤ, IfSome};

// What a brush gives each cell.
pub trait Ink {
    ghost shade: { Self → ℤ → ℤ → ℕ };

    fn word(&self, x: i32, y: i32) -> u16
        ensures { result ≡ shade self.now x y };

    // The word that every cell has; None where they may differ.
    fn solid(&self) -> Option<u16>
        ensures { IfSome result (λ w. (x y : ℤ) → shade self.now x y ≡ w) };
}

// One colour everywhere.
#[derive(Clone, Copy)]
pub struct Solid(pub u16);

impl Ink for Solid {
    ghost shade = { λ s _ _. s.0 };

    fn word(&self, _x: i32, _y: i32) -> u16 {
        self.0
    }

    fn solid(&self) -> Option<u16> {
        Some(self.0)
    }
}
