// The units of whole numbers in f64.
ghost use Rattle.std.specs.Prelude.{◌≡◌, true, pos};
ghost use Rattle.ranges.specs.Ranges.{within};
ghost use Rattle.elementary.specs.Floats.{◌⊗◌, whole as Floats·whole};
ghost use Rattle.angle.specs.Units.{k};

// Seconds in a radian.
pub const SECONDS: f64 = 206264.806247096355;

// 90 degrees, in units of 0.00001".
pub(crate) const QUARTER: i64 = 32400000000;

// Units of 0.00001" in radians.
pub fn radians(n: f64) -> f64
    ensures { result ≡ n ⊗ k }
{
    n * 4.84813681109536e-11
}

// The whole number n, from 0 to below 2^52, as an f64: put among the digits of 2^52, which is then taken off. `as f64` is the same number, but
// the machine writes it into half a register and waits for what stood there, which at a call's start is the last of the call before.
pub fn whole(n: i64) -> f64
    requires { within (pos 0) n (pos 4503599627370495) ≡ true }
    ensures { result ≡ Floats·whole n }
{
    f64::from_bits(n as u64 + 0x4330_0000_0000_0000) - 4503599627370496.0
}
