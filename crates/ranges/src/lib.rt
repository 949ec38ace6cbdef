// The table of ranges: which whole numbers the product takes. All ends are allowed, every i64 is answered, and a range is said as (low,
// number, high) everywhere. Tests are joined by `&`, so that each function is one expression with no branch.
#![tactic(auto)]

ghost use Rattle.std.specs.Prelude.{◌≡◌, ◌&&◌};
ghost use Rattle.ranges.specs.Ranges.{within, equal, area, ellipsoid_range, latitude_range, longitude_range, height_range, offset_range, profile_range};

// Whether lo <= z <= hi. It stays as it is, and no `(lo..=hi).contains(&z)`: every coordinate and every step passes by here, with no branch.
pub fn within(lo: i64, z: i64, hi: i64) -> bool
    ensures { result ≡ within lo z hi }
{
    (lo <= z) & (z <= hi)
}

// Whether two numbers are one. It stays for its callers, whose tests of ranges are calls joined by `&` and `|`.
pub fn equal(a: i64, b: i64) -> bool
    ensures { result ≡ equal a b }
{
    a == b
}

// Whether three numbers lie in one range.
pub fn three_within(lo: i64, x: i64, y: i64, z: i64, hi: i64) -> bool
    ensures { result ≡ (within lo x hi && within lo y hi && within lo z hi) }
{
    within(lo, x, hi) & within(lo, y, hi) & within(lo, z, hi)
}

// X, Y and Z in units of 0.00001 m: whether the position lies in the area.
pub fn in_area(x: i64, y: i64, z: i64) -> bool
    ensures { result ≡ area x y z }
{
    within(-330000000000, x, -90000000000)
        & within(540000000000, y, 640000000000)
        & within(0, z, 90000000000)
}

// Whether a number is a profile: the year of a circular that a job can be under, 2009 or 2021.
pub fn is_profile(y: i64) -> bool
    ensures { result ≡ profile_range y }
{
    equal(2009, y) | equal(2021, y)
}

// Whether a number is a code of the table of ellipsoids: 1 to 4.
pub fn is_ellipsoid(z: i64) -> bool
    ensures { result ≡ ellipsoid_range z }
{
    within(1, z, 4)
}

// Units of 0.00001": 0 to 8 degrees.
pub fn is_latitude(z: i64) -> bool
    ensures { result ≡ latitude_range z }
{
    within(0, z, 2880000000)
}

// Units of 0.00001": 99 to 120 degrees.
pub fn is_longitude(z: i64) -> bool
    ensures { result ≡ longitude_range z }
{
    within(35640000000, z, 43200000000)
}

// Units of 0.00001 m: -500 to 9,000 m.
pub fn is_height(z: i64) -> bool
    ensures { result ≡ height_range z }
{
    within(-50000000, z, 900000000)
}

// Millimetres, a false easting or northing: at most 2,000 km in size.
pub fn is_offset(z: i64) -> bool
    ensures { result ≡ offset_range z }
{
    within(-2000000000, z, 2000000000)
}
