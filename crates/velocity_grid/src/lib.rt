// A velocity grid: east, north and up at its nodes, between them by the bilinear rule, and turned to a velocity step. Latitudes and longitudes are whole
// units of 0.00001", parts whole hundredths of a millimetre a year, which are units of 0.00001 m. Every call answers for every input.
#![tactic(auto)]

ghost use Rattle.velocity_grid.specs.Answers.{gives_refusal};

mod at_point;
mod between;
mod header;
mod locate;
mod moving;
mod nodes;
mod step;
mod text;
mod turn;

pub use at_point::parts_at;
pub use moving::motion_at;
use refusal::Refusal;
pub use step::{step_at, velocity_at};
pub use text::{check_grid, read_grid};

// A grid is its header (`line::GridHeader`: the south-west corner, at 0 to 8 degrees north and 99 to 120 degrees east, rows and columns, 2 or more each and at
// most 4,000 nodes, and a mesh of 5 or 10 minutes) and the numbers of its nodes. It may reach past those angles itself.

// Room for the numbers of 4,000 nodes.
pub type Nodes = [i64; 12000];

// What is wrong with a grid's text: the refusal; the line, from 1, or 0 where no line is; and the place in it, 0 but for a line of bad form.
#[derive(Clone, Copy)]
pub struct GridFault {
    pub refusal: Refusal,
    pub line: u16,
    pub place: u8,
}

impl From<GridFault> for Refusal {
    ghost from_gives = { gives_refusal };

    fn from(fault: GridFault) -> Refusal {
        fault.refusal
    }
}

// Where a number stands along an axis: the cell, from 0, and how far into it.
#[derive(Clone, Copy)]
pub struct AxisCell {
    pub cell: usize,
    pub offset: usize,
}

// The cell of a point: the number of its south-west node, how many nodes a row has, the mesh, and how far east and north of that node the point lies, in units.
#[derive(Clone, Copy)]
pub struct Cell {
    pub node: usize,
    pub columns: usize,
    pub mesh: i64,
    pub east: i64,
    pub north: i64,
}

// A part's values at the four nodes of a cell.
#[derive(Clone, Copy)]
pub struct Corners {
    pub south_west: i64,
    pub south_east: i64,
    pub north_west: i64,
    pub north_east: i64,
}

// East, north and up turned to X, Y and Z, before they are rounded.
#[derive(Clone, Copy)]
pub struct Turned {
    pub x: f64,
    pub y: f64,
    pub z: f64,
}

// East, north and up at a point, and the velocity that they turn to, in whole units of 0.00001 m a year.
#[derive(Clone, Copy)]
pub struct Motion {
    pub parts: line::VelocityParts,
    pub velocity: chain::Velocity,
}
