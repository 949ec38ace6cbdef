// East, north and up at a point.
ghost use Rattle.std.specs.Prelude.{◌≡◌, true, ◌≤◌};
ghost use Rattle.refusal.specs.Order.{first};
ghost use Rattle.refusal.specs.Refusals.{told, fault_number};
ghost use Rattle.velocity_grid.specs.AtPoint.{cell_known, part_of, parts_in, parts_at, grid_tests};
ghost use Rattle.velocity_grid.specs.OnGrid.{CellIn};

use crate::between::bilinear;
use crate::locate::{cell, on_grid};
use crate::nodes::{cell_known, corners};
use crate::{Cell, header};
use line::{GridHeader, VelocityParts};
use refusal::Refusal;

// Part p of a point in a cell whose nodes all have a value.
fn part(nodes: &[i64], p: usize, c: Cell) -> i64
    requires { (p ≤ 2) × CellIn c × (cell_known nodes.now c ≡ true) }
    ensures { result ≡ part_of nodes.now p c }
{
    let values = corners(nodes, p, c);
    bilinear(c.mesh, c.east, c.north, values)
}

// All three.
fn parts_in(nodes: &[i64], c: Cell) -> VelocityParts
    requires { CellIn c × (cell_known nodes.now c ≡ true) }
    ensures { result ≡ parts_in nodes.now c }
{
    let east = part(nodes, 0, c);
    let north = part(nodes, 1, c);
    let up = part(nodes, 2, c);
    VelocityParts { east, north, up }
}

// What a grid is refused for by itself: Range for its header, Lines where numbers of nodes are missing or left over.
fn grid_fault(g: GridHeader, nodes: &[i64]) -> Result<(), Refusal>
    ensures { fault_number result ≡ first (grid_tests g nodes.now) }
{
    if !header::in_range(g) {
        return Err(Refusal::Range);
    }
    if nodes.len() != header::count(g.rows, g.columns) {
        return Err(Refusal::Lines);
    }
    Ok(())
}

// East, north and up at a point, each one fraction of the four nodes of its cell, rounded once. The nodes are three numbers each, east, north and up,
// eastward, rows going north; a node whose numbers are not each within 2,500 has no value. Refused: Range for the header, Lines where numbers are missing or
// left over, Geodetic for the point's angles, OffGrid where it lies off the grid or a node of its cell has no value.
pub fn parts_at(
    g: GridHeader,
    nodes: &[i64],
    latitude: i64,
    longitude: i64,
) -> Result<VelocityParts, Refusal>
    ensures { told result ≡ parts_at g nodes.now latitude longitude }
{
    grid_fault(g, nodes)?;
    angle::angles_fault(latitude, longitude)?;
    if !on_grid(g, latitude, longitude) {
        return Err(Refusal::OffGrid);
    }
    let c = cell(g, latitude, longitude);
    if !cell_known(nodes, c) {
        return Err(Refusal::OffGrid);
    }
    Ok(parts_in(nodes, c))
}
