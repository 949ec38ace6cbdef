// A sheet's rules: one line decided by value over a state, and a whole sheet from bytes to bytes.
#![tactic(auto)]

mod decide;

pub use decide::lent::{is_sound_at, print_lent};
pub use decide::standing::{answer_line, is_sound};
pub use decide::whole::{sheet, write_reply};

// The reply to a line.
#[derive(Clone, Copy)]
pub enum Reply {
    // An accepted step or edition prints nothing.
    Nothing,
    // A point's new line.
    Point(chain::Point),
    // The line's number, the refusal's, and the place in the line: 0 but for a line of bad form.
    // stays: a u8 for the refusal, since `write_reply` is public and writes any number.
    Refused(u64, u8, u8),
}

// What has been read so far, but for the chain, which is lent beside it so that no line copies it.
#[derive(Clone, Copy)]
struct State {
    // The number of the line to come, from 1.
    line: u64,
    // The edition of the circular that the chain is under, 2009 or 2021.
    profile: i64,
    // A line beginning with S or E was refused.
    refused: bool,
    // A point line of good form was read.
    closed: bool,
}

// What is decided on a line: the reply to it, and the state after it; within `decide`, but for the line's number.
#[derive(Clone, Copy)]
struct Decided {
    reply: Reply,
    state: State,
}

// What is printed for a line: the place past it, and the state after it; within `print_point`, but for the line's number.
#[derive(Clone, Copy)]
struct Printed {
    at: usize,
    state: State,
}

// Where a sheet stands between two lines, by value. Its chain is steps, as a caller can keep them and hand them back.
#[derive(Clone, Copy)]
pub struct Standing {
    // The number of the line to come, from 1; 1,000,001 where no more lines are read.
    pub line: u64,
    // The steps accepted, under the edition of the circular that the sheet names.
    pub chain: chain::Chain,
    // A line beginning with S or E was refused.
    pub refused: bool,
    // A point line of good form was read.
    pub closed: bool,
}

// What is printed for a point line over a lent chain: the place past it, and whether the line closes the chain.
#[derive(Clone, Copy)]
pub struct LentPoint {
    pub at: usize,
    pub closes: bool,
}

// What a line is answered, and where the sheet stands after it.
#[derive(Clone, Copy)]
pub struct Answered {
    pub standing: Standing,
    // None where no sheet can stand: a count is out of range, or the chain is bad.
    pub response: Option<Reply>,
}
