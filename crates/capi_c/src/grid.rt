// Velocities from a grid in our own lines.
ghost use Rattle.capi.specs.Outcome.{Returns};
ghost use Rattle.capi.specs.Grids.{grid_velocity_call, grid_fault_call};

// East, north and up at a point of a grid, and the velocity step that they give.
#[unsafe(no_mangle)]
pub extern "C" fn swivelcrane_grid_velocity(
    grid: &[u8],
    latitude: i64,
    longitude: i64,
    datum: i64,
    before: i64,
    after: i64,
    out: &mut [i64],
) -> i64
    ensures { Returns (grid_velocity_call grid.now latitude longitude datum before after out.old) out.old out.new result }
{
    capi::grid::swivelcrane_grid_velocity(grid, latitude, longitude, datum, before, after, out)
}

// What is wrong with a grid's text: its own refusal number, the line, from 1 (0 where no line is at fault), and the byte in that line, from 0 (0 but for a line of
// bad form). Three zeros where nothing is. Nothing is refused here.
#[unsafe(no_mangle)]
pub extern "C" fn swivelcrane_grid_fault(grid: &[u8], out: &mut [i64]) -> i64
    ensures { Returns (grid_fault_call grid.now out.old) out.old out.new result }
{
    capi::grid::swivelcrane_grid_fault(grid, out)
}
