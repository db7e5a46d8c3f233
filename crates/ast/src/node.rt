// One node of the tree file (document 01): the parts of the entries and the bodies start at its own.
ghost use Rattle.std.specs.Prelude.{◌≡◌, ◌≤◌, length};
ghost use Rattle.std.specs.Float.Ieee as Ieee;
ghost use Rattle.std.specs.Float.{binary64};
ghost use Rattle.lent.specs.Bytes.{be_value, part};

// The binary64 of 19 Num.
pub fn number(bodies: &[u8]) -> f64
    requires { 8 ≤ length bodies.now }
    ensures { result ≡ Ieee.of_bits binary64 (be_value (part bodies.now 0 8)) }
{
    numeric::from_bits(lent::get_u64(bodies, 0))
}
