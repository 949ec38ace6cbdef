// Lines: the lines of an input, bytes to records and records to bytes, and the later of two point lines.
//
// A line is at most 200 bytes with the line feed at its end; its fields are parted by one tab. Every function here takes any bytes
// of any length. What is refused is refused for its form first, whatever its numbers are.
#![tactic(auto)]

ghost use Rattle.line.specs.Answers.{gives_malformed, gives_refused};

mod awaited;
mod compare;
mod edition_line;
mod ends;
mod field;
mod form;
mod geodetic_line;
mod grid_line;
mod name;
mod node_line;
mod number;
mod origin_line;
mod other_line;
mod point_line;
mod second_look;
mod step_line;
mod write;

pub use compare::{later_fault, later_of_two, later_verdict};
pub use edition_line::read_edition;
pub use ends::line_end;
pub use field::LINE_FEED;
pub use geodetic_line::read_geodetic;
pub use grid_line::read_grid_header;
pub use node_line::read_node;
pub use origin_line::read_origin;
pub use other_line::strange;
pub use point_line::{read_one, read_placed, read_point};
use refusal::Refusal;
pub use step_line::read_step;
pub use write::feeds::write_feeds;
pub use write::lot::write_lot;
pub use write::{write_moved, write_point, write_projected, write_refusal};

// What is wrong with the form of a line, and the byte in the line, from 0, where the first offending field begins. For LENGTH and COUNT the place is the
// line's length without its line feed, at most 200.
#[derive(Clone, Copy)]
pub struct Fault {
    pub refusal: Refusal,
    pub place: u8,
}

// Why a line is not read as a record: it is not of the form, or the form is good and what the fields say is not.
#[derive(Clone, Copy)]
pub enum Unread {
    Malformed(Fault),
    Refused(Refusal),
}

impl From<Fault> for Unread {
    ghost from_gives = { gives_malformed };

    fn from(fault: Fault) -> Unread {
        Unread::Malformed(fault)
    }
}

impl From<Refusal> for Unread {
    ghost from_gives = { gives_refused };

    fn from(refusal: Refusal) -> Unread {
        Unread::Refused(refusal)
    }
}

// Bare line feeds that were answered: how many, and the place past what was written for them.
#[derive(Clone, Copy)]
pub struct Feeds {
    pub lines: usize,
    pub at: usize,
}

// P: the line of an input that begins at some place, as a point line; the place in the line where the datum begins, 0 where the line is malformed: what
// stands before it is the point's label, as it is written; and the place in the input where the line ends.
#[derive(Clone, Copy)]
pub struct PlacedLine {
    pub line: Result<chain::Point, Unread>,
    pub place: usize,
    pub end: usize,
}

// G: a named position, latitude and longitude in 0.00001".
#[derive(Clone, Copy)]
pub struct Geodetic {
    pub id: chain::Id,
    pub latitude: i64,
    pub longitude: i64,
}

// G, of a velocity grid: the latitude and longitude of its south-west corner in 0.00001", rows, columns, and the mesh in minutes.
#[derive(Clone, Copy)]
pub struct GridHeader {
    pub latitude: i64,
    pub longitude: i64,
    pub rows: i64,
    pub columns: i64,
    pub mesh: i64,
}

// East, north and up, in hundredths of a millimetre a year.
#[derive(Clone, Copy)]
pub struct VelocityParts {
    pub east: i64,
    pub north: i64,
    pub up: i64,
}

// Why neither of two point lines is the later one; the line it is given for, 1 or 2, or 0 where neither alone is at fault; and the place in that line,
// 0 but for a line of bad form.
#[derive(Clone, Copy)]
pub struct LaterFault {
    pub refusal: Refusal,
    pub line: u8,
    pub place: u8,
}

// Which of two point lines is the later one.
#[derive(Clone, Copy)]
pub enum Which {
    First,
    Second,
}

// Why neither of two point lines is handed back, and the part that is in their place: it is empty and begins where the first line begins, so a caller
// that goes on from the part, whatever the answer, is still within its own bytes.
#[derive(Clone, Copy)]
pub struct Neither<'a> {
    pub fault: LaterFault,
    pub part: &'a [u8],
}
