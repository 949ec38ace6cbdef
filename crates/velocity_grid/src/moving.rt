// A point's motion, from a grid's text: the three parts there, and the velocity that they turn to.
ghost use Rattle.std.specs.Prelude.{◌≡◌};
ghost use Rattle.refusal.specs.Refusals.{told};
ghost use Rattle.velocity_grid.specs.Motion.{motion_of};

use crate::at_point::parts_at;
use crate::step::velocity_at;
use crate::text::read_grid;
use crate::{Motion, Nodes, header};
use refusal::Refusal;

// The motion at a point (units of 0.00001") of a grid in our own lines, for a datum and two epochs (thousandths of a year): the parts in hundredths of a
// millimetre a year, the velocity in units of 0.00001 m a year. Refused as check_grid refuses, by the number alone; then Geodetic for the point's angles,
// OffGrid off the grid or where a node of its cell has no value; then Range, Epoch, Kind for the datum and the epochs.
pub fn motion_at(
    text: &[u8],
    latitude: i64,
    longitude: i64,
    datum: i64,
    before: i64,
    after: i64,
) -> Result<Motion, Refusal>
    ensures { told result ≡ motion_of text.now latitude longitude datum before after }
{
    let mut nodes: Nodes = [0; 12000];
    let g = read_grid(text, &mut nodes)?;
    let known = &nodes[..header::count(g.rows, g.columns)];
    let velocity = velocity_at(g, known, latitude, longitude, datum, before, after)?;
    let parts = parts_at(g, known, latitude, longitude)?;
    Ok(Motion { parts, velocity })
}
