// Angles to metres in f64, and back: geodetic to Cartesian, Cartesian to geodetic, and Cassini-Soldner. Latitudes and longitudes are whole units of 0.00001",
// heights whole units of 0.00001 m, false eastings and northings whole millimetres. Every call answers for every input.
#![tactic(auto)]

ghost use Rattle.std.specs.Prelude.{◌≡◌, true};
ghost use Rattle.ranges.specs.Ranges.{latitude_range};
ghost use Rattle.angle.specs.Terms.{terms_of};

mod ellipsoids;
mod faults;
mod from_xyz;
mod geodetic;
mod numbers;
mod projection;

pub use ellipsoids::ellipsoid as ellipsoid_of;
pub use faults::{angles_fault, origin_fault};
pub use from_xyz::geodetic_units;
pub use geodetic::{cartesian_metres, cartesian_units};
pub use numbers::{SECONDS, radians};
pub use projection::{cassini, cassini_millimetres, cassini_millimetres_from, make_origin};

// An ellipsoid: the semi-major axis in metres, the flattening, and the first eccentricity squared.
#[derive(Clone, Copy)]
pub struct Ellipsoid {
    pub a: f64,
    pub f: f64,
    pub e2: f64,
}

// A row of the table of ellipsoids: the semi-major axis in metres, and 1/f.
#[derive(Clone, Copy)]
struct Figure {
    a: f64,
    inverse_flattening: f64,
}

// What an ellipsoid's e2 alone decides: the four factors of the meridian's length, and the second eccentricity squared.
#[derive(Clone, Copy)]
struct Terms {
    m0: f64,
    m2: f64,
    m4: f64,
    m6: f64,
    second: f64,
}

// An ellipsoid with its own terms.
#[derive(Clone, Copy)]
struct Known {
    ellipsoid: Ellipsoid,
    terms: Terms,
    ghost own: { terms ≡ terms_of ellipsoid },
}

// A latitude in its range.
#[derive(Clone, Copy)]
struct Latitude {
    units: i64,
    ghost in_range: { latitude_range units ≡ true },
}

// What a latitude alone decides: itself in radians, its sine and cosine, and the radius of curvature in the prime vertical there, in metres.
#[derive(Clone, Copy)]
struct Parallel {
    phi: f64,
    sine: f64,
    cosine: f64,
    nu: f64,
}

// A state origin as it is written: the ellipsoid's code (1 to 4), its latitude and longitude, its false easting and northing.
#[derive(Clone, Copy)]
pub struct OriginNumbers {
    pub ellipsoid: i64,
    pub latitude: i64,
    pub longitude: i64,
    pub false_easting: i64,
    pub false_northing: i64,
}

// A state origin made ready for many points: the longitude stays whole; m0 is the meridian's length to its latitude, and the false
// easting and northing are in metres.
#[derive(Clone, Copy)]
pub struct Origin {
    pub ellipsoid: Ellipsoid,
    pub longitude: i64,
    pub m0: f64,
    pub false_easting: f64,
    pub false_northing: f64,
}

// X, Y and Z in metres.
#[derive(Clone, Copy)]
pub struct Metres {
    pub x: f64,
    pub y: f64,
    pub z: f64,
}

// X, Y and Z in whole units of 0.00001 m.
#[derive(Clone, Copy)]
pub struct Units {
    pub x: i64,
    pub y: i64,
    pub z: i64,
}

// What the formulas from X, Y and Z give: latitude in seconds, longitude in seconds past 90 degrees, height in metres.
#[derive(Clone, Copy)]
struct Found {
    latitude: f64,
    longitude: f64,
    height: f64,
}

// Latitude and longitude in whole units of 0.00001" and height in whole units of 0.00001 m.
#[derive(Clone, Copy)]
pub struct Angles {
    pub latitude: i64,
    pub longitude: i64,
    pub height: i64,
}

// Easting and northing in metres.
#[derive(Clone, Copy)]
pub struct Projected {
    pub easting: f64,
    pub northing: f64,
}

// Easting and northing in whole millimetres.
#[derive(Clone, Copy)]
pub struct Millimetres {
    pub easting: i64,
    pub northing: i64,
}
