// A fraction over 1,000, 10^11 or 10^14 to the nearest whole number by one division of u = n + lift, which is no signed number: the lift is
// a multiple of the divisor that no part reaches, and half the divisor. The quotient is the fraction rounded, a half up; only where nothing
// is left over is it a half, and then `rounding::quotient::settled` decides.
ghost use Rattle.std.specs.Prelude.{◌≡◌, ◌≤◌, ℤ, pos, nat_abs, ◌+ℤ◌, ◌-ℤ◌};
ghost use Rattle.rounding.specs.Nearest.{to_even};
ghost use Rattle.rounding.specs.Quotient.{mixed};

// n + lift. The sum passes i64, so it is made by cases; both become one addition.
fn raised(n: i64, lift: u64) -> u64
    requires { (nat_abs n ≤ 8000000000000000000) × (8000000000000000000 ≤ lift) × (lift ≤ 8100000000000000000) }
    ensures { pos result ≡ n +ℤ pos lift }
{
    if n < 0 {
        lift - ((0 - n) as u64)
    } else {
        lift + (n as u64)
    }
}

// The quotient without the lift, on a whole part.
fn lowered(k: i64, q: u64, lifted: i64) -> i64
    requires { (nat_abs k ≤ 100000000) × (q ≤ 200000000) × (nat_abs lifted ≤ 100000000) }
    ensures { result ≡ k +ℤ (pos q -ℤ lifted) }
{
    k + ((q as i64) - lifted)
}

// k + n/10^11, a half to the even number. 2,048 divides 10^11, so that what it does not divide leaves something over and is no half: the
// product that tells is made for one part in 2,048.
pub fn over11(k: i64, n: i64) -> i64
    requires { (nat_abs k ≤ 100000000) × (nat_abs n ≤ 8000000000000000000) }
    ensures { result ≡ mixed to_even k n (pos 100000000000) }
{
    let u = raised(n, 8000000050000000000);
    let q = u / 100000000000;
    let t = lowered(k, q, 80000000);
    if u % 2048 != 0 {
        return t;
    }
    rounding::quotient::settled(t, u == q * 100000000000)
}

// n/10^14, a half to the even number.
pub fn over14(n: i64) -> i64
    requires { nat_abs n ≤ 8000000000000000000 }
    ensures { result ≡ mixed to_even (pos 0) n (pos 100000000000000) }
{
    let u = raised(n, 8000050000000000000);
    let q = u / 100000000000000;
    let t = lowered(0, q, 80000);
    rounding::quotient::settled(t, u == q * 100000000000000)
}

// n/1000, a half to the even number. Its lift is small, so that the sum is made as it stands.
pub fn over3(n: i64) -> i64
    requires { nat_abs n ≤ 2000000000 }
    ensures { result ≡ mixed to_even (pos 0) n (pos 1000) }
{
    let u = (n + 2000000500) as u64;
    let q = u / 1000;
    let t = lowered(0, q, 2000000);
    rounding::quotient::settled(t, u == q * 1000)
}
