ghost use Rattle.std.specs.Prelude.{◌≡◌, ℕ, ◌+◌, ◌-◌, ◌*◌, ◌<◌};
ghost use Rattle.codes.specs.Bits.{bit};

// Every bit of the word is bit `row` of the table.
pub(crate) fn spread(table: u8, row: u8) -> u16
    requires { row < 8 }
    ensures { (k : ℕ) → k < 16 → bit k result ≡ bit row table }
{
    if (table >> row) & 1 == 1 { 0xffff } else { 0 }
}

// Bit by bit: where `which` has 1 the bit of `one`, elsewhere that of `zero`.
pub(crate) fn choose(which: u16, one: u16, zero: u16) -> u16
    ensures { (k : ℕ) → bit k result ≡ bit k which * bit k one + (1 - bit k which) * bit k zero }
{
    zero ^ (which & (one ^ zero))
}
