// Cassini-Soldner eastings and northings.
ghost use Rattle.capi.specs.Outcome.{Returns};
ghost use Rattle.capi.specs.Calls.{origin_from, cassini_call, millimetres_call};

// Easting and northing in metres.
#[unsafe(no_mangle)]
pub extern "C" fn swivelcrane_cassini(
    ellipsoid: i64,
    origin_latitude: i64,
    origin_longitude: i64,
    false_easting: i64,
    false_northing: i64,
    latitude: i64,
    longitude: i64,
    out: &mut [f64],
) -> i64
    ensures { Returns (cassini_call (origin_from ellipsoid origin_latitude origin_longitude false_easting false_northing) latitude longitude out.old) out.old out.new result }
{
    capi::projected::swivelcrane_cassini(
        ellipsoid,
        origin_latitude,
        origin_longitude,
        false_easting,
        false_northing,
        latitude,
        longitude,
        out,
    )
}

// Easting and northing in whole millimetres.
#[unsafe(no_mangle)]
pub extern "C" fn swivelcrane_cassini_millimetres(
    ellipsoid: i64,
    origin_latitude: i64,
    origin_longitude: i64,
    false_easting: i64,
    false_northing: i64,
    latitude: i64,
    longitude: i64,
    out: &mut [i64],
) -> i64
    ensures { Returns (millimetres_call (origin_from ellipsoid origin_latitude origin_longitude false_easting false_northing) latitude longitude out.old) out.old out.new result }
{
    capi::projected::swivelcrane_cassini_millimetres(
        ellipsoid,
        origin_latitude,
        origin_longitude,
        false_easting,
        false_northing,
        latitude,
        longitude,
        out,
    )
}
