// Document 000's worked examples, run: the printed point on GRS80 in Cartesian coordinates, and the two Cassini examples from the
// origin of Kedah and Perlis. Each line says what document 000 prints, and whether the libraries answer it.
#![tactic(auto)]

use angle::OriginNumbers;
use std::io;

fn says(rt: &impl Print, what: &str, ok: bool) -> io::Result<()> {
    let answer = if ok { "yes" } else { "no" };
    println!(rt; "{what}: {answer}")
}

// N 6 27' 00.56909", E 100 16' 47.05076", height 18.078 m. The coordinates are in units of 0.00001 m, and each may be 1 mm off.
fn position(rt: &impl Print) -> io::Result<()> {
    let Ok(p) = angle::cartesian_units(1, 2322056909, 36100705076, 1807800) else {
        return says(rt, "a position", false);
    };
    let printed = [
        ("X -1131051.654 within 1 mm", p.x, -113105165400),
        ("Y 6236311.800 within 1 mm", p.y, 623631180000),
        ("Z 711748.112 within 1 mm", p.z, 71174811200),
    ];
    for (what, answered, coordinate) in printed {
        let off = (coordinate - 100)..=(coordinate + 100);
        says(rt, what, off.contains(&answered))?;
    }
    Ok(())
}

// A worked example of Cassini: the origin's angles and the point's, and the point's easting and northing as document 000 prints them, to four
// decimals and to three.
#[derive(Clone, Copy)]
struct Example {
    origin: (i64, i64),
    point: (i64, i64),
    four: (&'static str, i64, i64),
    three: (&'static str, i64, i64),
}

impl Example {
    // The origin, on GRS80 with no false easting or northing.
    fn numbers(self) -> OriginNumbers {
        let (latitude, longitude) = self.origin;
        OriginNumbers {
            ellipsoid: 1,
            latitude,
            longitude,
            false_easting: 0,
            false_northing: 0,
        }
    }

    // Whether the answer in metres has the four printed decimals.
    fn lies(self) -> bool {
        let (latitude, longitude) = self.point;
        let Ok(p) = angle::cassini(self.numbers(), latitude, longitude) else {
            return false;
        };
        let (_, east, north) = self.four;
        rounding::round_places(p.easting, 4) == Ok(east)
            && rounding::round_places(p.northing, 4) == Ok(north)
    }

    // Whether the answer in whole millimetres has the three.
    fn lies_in_millimetres(self) -> bool {
        let (latitude, longitude) = self.point;
        let (_, east, north) = self.three;
        match angle::cassini_millimetres(self.numbers(), latitude, longitude) {
            Ok(p) => (p.easting, p.northing) == (east, north),
            Err(_) => false,
        }
    }
}

const EXAMPLES: [Example; 2] = [
    // N 6 08' 22.98682", E 100 23' 06.56827", from the origin in GDM2000 (2009)
    Example {
        origin: (2147281981, 36229093028),
        point: (2210298682, 36138656827),
        four: ("E -27805.4141 N 19364.3084", -278054141, 193643084),
        three: ("E -27805.414 N 19364.308", -27805414, 19364308),
    },
    // N 6 08' 22.98892", E 100 23' 06.57684", from the origin in GDM2000
    Example {
        origin: (2147282155, 36229093860),
        point: (2210298892, 36138657684),
        four: ("E -27805.4063 N 19364.3195", -278054063, 193643195),
        three: ("E -27805.406 N 19364.319", -27805406, 19364319),
    },
];

fn main(rt: HostRuntime) -> io::Result<()> {
    position(&rt)?;
    for e in EXAMPLES {
        says(&rt, e.four.0, e.lies())?;
        says(&rt, e.three.0, e.lies_in_millimetres())?;
    }
    Ok(())
}
