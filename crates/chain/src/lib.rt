// Datum steps on Cartesian positions, forward and inverse, and chains of up to eight of them.
// The definitions that a function opens stand above it (`unfolding`), so that its proof needs no file of its own.
#![tactic(auto)]

mod checks;
mod faults;
mod kinds;
mod lent;
mod numbers;
mod points;
mod profiles;
mod row;
mod steps;

pub use crate::checks::chain_fault;
pub use crate::faults::{point_fault, profile_fault, step_fault};
pub use crate::lent::fault_in;
pub use crate::numbers::chain_from;
pub use crate::row::answers::convert_row;
pub use crate::row::{convert_ready, convert_row_numbered, ready_chain};
pub use crate::steps::convert::join::join;
pub use crate::steps::convert::lent::{arrive_by, forward_by, inverse_by};
pub use crate::steps::convert::{forward, inverse};
pub use crate::steps::kept::{arrive_prepared, extend, forward_prepared, inverse_prepared};

// Geocentric coordinates in whole units of 0.00001 m.
#[derive(Clone, Copy)]
pub struct Position {
    pub x: i64,
    pub y: i64,
    pub z: i64,
}

// A datum (1 to 10) at an epoch, in thousandths of a year (0: none).
#[derive(Clone, Copy, PartialEq, Eq)]
pub struct Realization {
    pub datum: i64,
    pub epoch: i64,
}

// A point's name: up to 16 bytes, eight to a word, the first byte highest, zeros after the last. It is never examined here.
#[derive(Clone, Copy)]
pub struct Id {
    pub high: u64,
    pub low: u64,
}

// What a point is labelled with: its name, the issue of its coordinates (1 to 65,535), and its order of control (1 to 4). A conversion hands it on as it is.
#[derive(Clone, Copy)]
pub struct Label {
    pub id: Id,
    pub issue: i64,
    pub order: i64,
}

// A control point.
#[derive(Clone, Copy)]
pub struct Point {
    pub label: Label,
    pub realization: Realization,
    pub position: Position,
}

// T: a shift, in units.
#[derive(Clone, Copy)]
pub struct Shift {
    pub dx: i64,
    pub dy: i64,
    pub dz: i64,
}

// V: a velocity, in units a year.
#[derive(Clone, Copy)]
pub struct Velocity {
    pub vx: i64,
    pub vy: i64,
    pub vz: i64,
}

// How the rotations of a Bursa-Wolf step turn: P, and C with all three signs changed.
#[derive(Clone, Copy)]
pub enum Convention {
    PositionVector,
    CoordinateFrame,
}

// B: shifts in units, rotations in 0.00001", scale in 10^-11.
#[derive(Clone, Copy)]
pub struct BursaWolf {
    pub convention: Convention,
    pub dx: i64,
    pub dy: i64,
    pub dz: i64,
    pub rx: i64,
    pub ry: i64,
    pub rz: i64,
    pub s: i64,
}

// A kind of step carries just its own numbers. Frame is F: to ITRF2014, its figures are those of the datum before.
#[derive(Clone, Copy)]
pub enum Kind {
    Shift(Shift),
    Velocity(Velocity),
    BursaWolf(BursaWolf),
    Frame,
}

// A step, with its datum and epoch before and after.
#[derive(Clone, Copy)]
pub struct Step {
    pub kind: Kind,
    pub before: Realization,
    pub after: Realization,
}

// The profile of a job that names no edition.
pub const LATEST: i64 = 2021;

// A chain: the first `length` of its eight steps, under a profile, which is the edition of the circular that the job names: 2009 or 2021. That of 2009 has
// datums 1 to 5 and 7, and of the steps T and B alone. The steps stay an array with their count beside: fixed memory, no heap.
#[derive(Clone, Copy)]
pub struct Chain {
    pub steps: [Step; 8],
    pub length: usize,
    pub profile: i64,
}

// A chain prepared for many points: its length, where it starts and ends, and its steps with their numbers worked out. All zeros are the
// empty chain; `extend` adds a step. How the numbers say it is this crate's own.
pub type Prepared = [i64; 72];

// A chain made ready for many points: its own refusal number, 0 for a good one; the profile that its points are examined under; and its steps prepared.
// The number stays a u8 beside the steps: a caller can make such a record of anything, and `convert_ready` answers each.
#[derive(Clone, Copy)]
pub struct ReadyChain {
    pub refusal: u8,
    pub profile: i64,
    pub numbers: Prepared,
}

// Where a chain leads a point, its label apart.
#[derive(Clone, Copy)]
pub struct Arrival {
    pub realization: Realization,
    pub position: Position,
}

// Which way a point, or a row of points, goes by a chain: to its end, or back to its start.
#[derive(Clone, Copy)]
pub enum Direction {
    Forward,
    Inverse,
}
