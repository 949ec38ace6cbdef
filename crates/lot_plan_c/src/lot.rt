// A point along the chain, to latitude and longitude, onto the state's grid; and the line of the lot plan.
ghost use Rattle.lot_plan.specs.LotPlan.{lot_plan_of, origin_from};
ghost use Rattle.lot_plan.specs.Drawn.{Drawn};

// A line of the lot plan: `chain` is the text of a chain's E and S lines, `point` a point line; the origin's angles in units of 0.00001", its false easting and
// northing in millimetres. The answer is the line's length with its line feed, or the refusal number negated: BUFFER where `out` has fewer than 200 bytes; then
// the chain's first refused line; then the point's, of its line and along the chain; then that of latitude and longitude; then the grid's.
#[unsafe(no_mangle)]
pub extern "C" fn swivelcrane_lot_plan(
    chain: &[u8],
    point: &[u8],
    ellipsoid: i64,
    origin_latitude: i64,
    origin_longitude: i64,
    false_easting: i64,
    false_northing: i64,
    out: &mut [u8],
) -> i64
    ensures { Drawn
        (lot_plan_of chain.now point.now
        (origin_from ellipsoid origin_latitude origin_longitude false_easting false_northing) out.old)
        out.old out.new result }
{
    lot_plan::chain_text::lot::swivelcrane_lot_plan(
        chain,
        point,
        ellipsoid,
        origin_latitude,
        origin_longitude,
        false_easting,
        false_northing,
        out,
    )
}
