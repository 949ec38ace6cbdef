// Where a point stands on a grid.
ghost use Rattle.std.specs.Prelude.{◌≡◌, true, ◌+◌, ◌*◌, ◌≤◌, ◌<◌};
ghost use Rattle.velocity_grid.specs.OnGrid.{grid_range, mesh_of, on_axis, axis_cell_of, along_of, on_grid, cell_of, AxisOk};

use crate::header::mesh_units;
use crate::{AxisCell, Cell};
use line::GridHeader;

// Whether a number lies on an axis that begins at `start` and has `count` nodes, m apart.
fn on_axis(start: i64, count: i64, m: i64, z: i64) -> bool
    requires { AxisOk start count m }
    ensures { result ≡ on_axis start count m z }
{
    ranges::within(start, z, start + (count - 1) * m)
}

// Whether a point lies on the grid, its edges and corners too.
pub(crate) fn on_grid(g: GridHeader, latitude: i64, longitude: i64) -> bool
    requires { grid_range g ≡ true }
    ensures { result ≡ on_grid g latitude longitude }
{
    let m = mesh_units(g.mesh);
    on_axis(g.latitude, g.rows, m, latitude) & on_axis(g.longitude, g.columns, m, longitude)
}

// The cell d past the first of `count` nodes, m apart, and how far into it. The last cell takes its own outer edge.
fn axis_cell(count: usize, m: usize, d: usize) -> AxisCell
    requires { (2 ≤ count) × (0 < m) × (d < 9223372036854775808) }
    ensures { result ≡ axis_cell_of count m d }
{
    let cell = d / m;
    if cell + 1 < count {
        return AxisCell {
            cell,
            offset: d % m,
        };
    }
    AxisCell {
        cell: count - 2,
        offset: m,
    }
}

// The same of a number on an axis.
fn along(start: i64, count: i64, m: i64, z: i64) -> AxisCell
    requires { AxisOk start count m × (on_axis start count m z ≡ true) }
    ensures { result ≡ along_of start count m z }
{
    axis_cell(count as usize, m as usize, (z - start) as usize)
}

// The number of a node, by its row and column.
fn node_number(row: usize, columns: usize, column: usize) -> usize
    requires { (row ≤ 2000) × (columns ≤ 2000) × (column ≤ 2000) }
    ensures { result ≡ row * columns + column }
{
    row * columns + column
}

// The cell of a point that lies on the grid.
pub(crate) fn cell(g: GridHeader, latitude: i64, longitude: i64) -> Cell
    requires { (grid_range g ≡ true) × (on_grid g latitude longitude ≡ true) }
    ensures { result ≡ cell_of g latitude longitude }
{
    let m = mesh_units(g.mesh);
    let north = along(g.latitude, g.rows, m, latitude);
    let east = along(g.longitude, g.columns, m, longitude);
    let columns = g.columns as usize;
    let node = node_number(north.cell, columns, east.cell);
    Cell {
        node,
        columns,
        mesh: m,
        east: east.offset as i64,
        north: north.offset as i64,
    }
}
