// Velocities from a grid in our own lines.
ghost use Rattle.capi.specs.Outcome.{Returns};
ghost use Rattle.capi.specs.Grids.{grid_velocity_call, grid_fault_call};

use crate::WRONG_LENGTH;
use crate::status::{give, status};

// East, north and up at a point of a grid, and the velocity step that they give.
pub fn swivelcrane_grid_velocity(
    grid: &[u8],
    latitude: i64,
    longitude: i64,
    datum: i64,
    before: i64,
    after: i64,
    out: &mut [i64],
) -> i64
    ensures { Returns (grid_velocity_call grid.now latitude longitude datum before after out.old) out.old out.new result }
{
    if out.len() != 16 {
        return WRONG_LENGTH;
    }
    match velocity_grid::motion_at(grid, latitude, longitude, datum, before, after) {
        Err(refusal) => status(refusal),
        Ok(m) => {
            let (e, n, u) = (m.parts.east, m.parts.north, m.parts.up);
            let (x, y, z) = (m.velocity.vx, m.velocity.vy, m.velocity.vz);
            let kind = i64::from(b'V');
            let numbers = [
                e, n, u, kind, 0, datum, before, datum, after, x, y, z, 0, 0, 0, 0,
            ];
            give(&numbers, out)
        }
    }
}

// What is wrong with a grid's text: its own refusal number, the line, from 1 (0 where no line is at fault), and the byte in that line, from 0 (0 but for a line of
// bad form). Three zeros where nothing is. Nothing is refused here.
pub fn swivelcrane_grid_fault(grid: &[u8], out: &mut [i64]) -> i64
    ensures { Returns (grid_fault_call grid.now out.old) out.old out.new result }
{
    if out.len() != 3 {
        return WRONG_LENGTH;
    }
    match velocity_grid::check_grid(grid) {
        Ok(_header) => give(&[0, 0, 0], out),
        Err(fault) => {
            let number = status(fault.refusal);
            give(
                &[number, i64::from(fault.line), i64::from(fault.place)],
                out,
            )
        }
    }
}
