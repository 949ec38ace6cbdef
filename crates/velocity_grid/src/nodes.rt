// The nodes of a grid: three numbers each, east, north and up.
ghost use Rattle.std.specs.Prelude.{◌≡◌, pos, get_or, ◌≤◌, ◌+◌, ◌*◌};
ghost use Rattle.velocity_grid.specs.AtPoint.{value_of, known, cell_known, corners_of};

use crate::{Cell, Corners};

// The number at an index, 0 past the end.
fn number(nodes: &[i64], i: usize) -> i64
    ensures { result ≡ get_or nodes.now i (pos 0) }
{
    if i < nodes.len() {
        return nodes[i];
    }
    0
}

// Whether a node has a value: its three numbers are each within 2,500.
fn known(nodes: &[i64], node: usize) -> bool
    requires { node ≤ 10000000 }
    ensures { result ≡ known nodes.now node }
{
    let east = number(nodes, 3 * node);
    let north = number(nodes, 3 * node + 1);
    let up = number(nodes, 3 * node + 2);
    ranges::three_within(-2500, east, north, up, 2500)
}

// Whether all four nodes of a cell have a value.
pub(crate) fn cell_known(nodes: &[i64], c: Cell) -> bool
    requires { (c.node ≤ 5000000) × (c.columns ≤ 2000) }
    ensures { result ≡ cell_known nodes.now c }
{
    let south = c.node;
    let north = c.node + c.columns;
    known(nodes, south) & known(nodes, south + 1) & known(nodes, north) & known(nodes, north + 1)
}

// Part p at the four nodes of a cell: 0 east, 1 north, 2 up.
pub(crate) fn corners(nodes: &[i64], p: usize, c: Cell) -> Corners
    requires { (p ≤ 2) × (c.node ≤ 5000000) × (c.columns ≤ 2000) }
    ensures { result ≡ corners_of nodes.now p c }
{
    let south = c.node;
    let north = c.node + c.columns;
    Corners {
        south_west: number(nodes, 3 * south + p),
        south_east: number(nodes, 3 * (south + 1) + p),
        north_west: number(nodes, 3 * north + p),
        north_east: number(nodes, 3 * (north + 1) + p),
    }
}
