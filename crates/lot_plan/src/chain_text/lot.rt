// A point along the chain, to latitude and longitude, onto the state's grid; and the line of the lot plan.
ghost use Rattle.std.specs.Prelude.{◌≡◌, ◌≤◌, pos, neg_ℤ, length};
ghost use Rattle.refusal.specs.Refusals.{number, told};
ghost use Rattle.lot_plan.specs.LotPlan.{lot_of, lot_plan_of, origin_from};
ghost use Rattle.lot_plan.specs.Drawn.{Drawn};
ghost use Rattle.lot_plan.specs.Reading.{point_told};
ghost use Rattle.line.specs.Readers.{read_point};

use crate::Lot;
use crate::chain_text::{read_chain, refusal_of};
use angle::OriginNumbers;
use chain::Point;
use refusal::Refusal;

// The room that the call asks for, whatever the line needs.
const ROOM: usize = 200;

// A point line under the chain's profile.
fn read_point(profile: i64, text: &[u8]) -> Result<Point, Refusal>
    ensures { told result ≡ point_told (read_point profile text.now) }
{
    line::read_point(profile, text).map_err(refusal_of)
}

// A lot by value, with nothing written: the point along the chain, to latitude and longitude, and these onto the grid. The first part that refuses decides.
fn lot_of(chain: &[u8], point: &[u8], o: OriginNumbers) -> Result<Lot, Refusal>
    ensures { told result ≡ lot_of chain.now point.now o }
{
    let mut numbers = [0; 72];
    let profile = read_chain(chain, &mut numbers)?;
    let given = read_point(profile, point)?;
    let converted = chain::forward_prepared(&numbers, given)?;
    let at = converted.position;
    let angles = angle::geodetic_units(o.ellipsoid, at.x, at.y, at.z)?;
    let plane = angle::cassini_millimetres(o, angles.latitude, angles.longitude)?;
    Ok(Lot {
        label: converted.label,
        easting: plane.easting,
        northing: plane.northing,
    })
}

// A refusal's answer.
fn negated(refusal: Refusal) -> i64
    ensures { result ≡ neg_ℤ (pos (number refusal)) }
{
    -i64::from(refusal.number())
}

// Writes a lot's line at the start of `out`: its length, or the refusal number negated and nothing written.
fn write(lot: Result<Lot, Refusal>, out: &mut [u8]) -> i64
    requires { 200 ≤ length out.old }
    ensures { Drawn (told lot) out.old out.new result }
{
    match lot {
        Err(refusal) => negated(refusal),
        Ok(lot) => line::write_lot(out, 0, lot.label, lot.easting, lot.northing) as i64,
    }
}

// A line of the lot plan: `chain` is the text of a chain's E and S lines, `point` a point line; the origin's angles in units of 0.00001", its false easting and
// northing in millimetres. The answer is the line's length with its line feed, or the refusal number negated: BUFFER where `out` has fewer than 200 bytes; then
// the chain's first refused line; then the point's, of its line and along the chain; then that of latitude and longitude; then the grid's.
pub fn swivelcrane_lot_plan(
    chain: &[u8],
    point: &[u8],
    ellipsoid: i64,
    origin_latitude: i64,
    origin_longitude: i64,
    false_easting: i64,
    false_northing: i64,
    out: &mut [u8],
) -> i64
    ensures { Drawn
        (lot_plan_of chain.now point.now
        (origin_from ellipsoid origin_latitude origin_longitude false_easting false_northing) out.old)
        out.old out.new result }
{
    if out.len() < ROOM {
        return negated(Refusal::Buffer);
    }
    let o = OriginNumbers {
        ellipsoid,
        latitude: origin_latitude,
        longitude: origin_longitude,
        false_easting,
        false_northing,
    };
    write(lot_of(chain, point, o), out)
}
