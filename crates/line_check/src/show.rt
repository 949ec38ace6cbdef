// How each reader's answer is printed: what was read of an accepted line; the number of a refused one, and the place of a malformed one after it; of two lines the
// number, the line and the place.
use line::{Fault, LaterFault, Unread, Which};
use std::io;

fn number(rt: &impl Print, n: u8) -> io::Result<()> {
    rt.print(n)?;
    rt.write_all(b"\n")
}

fn malformed(rt: &impl Print, f: Fault) -> io::Result<()> {
    rt.print(f.refusal.number())?;
    rt.write_all(b" ")?;
    number(rt, f.place)
}

fn neither(rt: &impl Print, f: LaterFault) -> io::Result<()> {
    rt.print(f.refusal.number())?;
    rt.write_all(b" ")?;
    rt.print(f.line)?;
    rt.write_all(b" ")?;
    number(rt, f.place)
}

// The first n bytes of a text.
fn print(rt: &impl Print, text: &[u8], n: usize) -> io::Result<()> {
    if n <= text.len() {
        rt.write_all(&text[..n])?;
    }
    Ok(())
}

// Two numbers, as a projected line of a point with no name.
fn pair(rt: &impl Print, a: i64, b: i64) -> io::Result<()> {
    projected(rt, chain::Id { high: 0, low: 0 }, a, b)
}

fn projected(rt: &impl Print, id: chain::Id, a: i64, b: i64) -> io::Result<()> {
    let mut out = [0u8; 64];
    let n = line::write_projected(&mut out, 0, id, a, b);
    print(rt, &out, n)
}

fn unread(rt: &impl Print, why: Unread) -> io::Result<()> {
    match why {
        Unread::Malformed(fault) => malformed(rt, fault),
        Unread::Refused(refusal) => number(rt, refusal.number()),
    }
}

pub(crate) fn point(rt: &impl Print, l: &[u8]) -> io::Result<()> {
    match line::read_point(chain::LATEST, l) {
        Err(why) => unread(rt, why),
        Ok(p) => {
            let mut out = [0u8; 200];
            let n = line::write_point(&mut out, 0, p);
            print(rt, &out, n)
        }
    }
}

fn kind(rt: &impl Print, k: chain::Kind) -> io::Result<()> {
    match k {
        chain::Kind::Shift(t) => {
            rt.write_all(b"T\n")?;
            pair(rt, t.dx, t.dy)?;
            pair(rt, t.dz, 0)
        }
        chain::Kind::Velocity(t) => {
            rt.write_all(b"V\n")?;
            pair(rt, t.vx, t.vy)?;
            pair(rt, t.vz, 0)
        }
        chain::Kind::BursaWolf(t) => bursa_wolf(rt, t),
        chain::Kind::Frame => rt.write_all(b"F\n"),
    }
}

fn bursa_wolf(rt: &impl Print, t: chain::BursaWolf) -> io::Result<()> {
    let convention = t.convention;
    match convention {
        chain::Convention::PositionVector => rt.write_all(b"P\n"),
        chain::Convention::CoordinateFrame => rt.write_all(b"C\n"),
    }?;
    pair(rt, t.dx, t.dy)?;
    pair(rt, t.dz, t.rx)?;
    pair(rt, t.ry, t.rz)?;
    pair(rt, t.s, 0)
}

pub(crate) fn step(rt: &impl Print, l: &[u8]) -> io::Result<()> {
    match line::read_step(chain::LATEST, l) {
        Err(why) => unread(rt, why),
        Ok(s) => {
            pair(rt, s.before.datum, s.before.epoch)?;
            pair(rt, s.after.datum, s.after.epoch)?;
            kind(rt, s.kind)
        }
    }
}

pub(crate) fn origin(rt: &impl Print, l: &[u8]) -> io::Result<()> {
    match line::read_origin(l) {
        Err(why) => unread(rt, why),
        Ok(o) => {
            pair(rt, o.ellipsoid, o.latitude)?;
            pair(rt, o.longitude, o.false_easting)?;
            pair(rt, o.false_northing, 0)
        }
    }
}

pub(crate) fn geodetic(rt: &impl Print, l: &[u8]) -> io::Result<()> {
    match line::read_geodetic(l) {
        Err(why) => unread(rt, why),
        Ok(g) => projected(rt, g.id, g.latitude, g.longitude),
    }
}

pub(crate) fn edition(rt: &impl Print, l: &[u8]) -> io::Result<()> {
    match line::read_edition(l) {
        Err(fault) => malformed(rt, fault),
        Ok(year) => pair(rt, year, 0),
    }
}

pub(crate) fn later(rt: &impl Print, [first, second]: [&[u8]; 2]) -> io::Result<()> {
    match line::later_verdict(first, second) {
        Ok(Which::First) => rt.write_all(b"first\n"),
        Ok(Which::Second) => rt.write_all(b"second\n"),
        Err(fault) => neither(rt, fault),
    }
}
