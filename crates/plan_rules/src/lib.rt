// A plan's rules: one line decided by value over a state, and a whole plan from bytes to bytes.
#![tactic(auto)]

mod decide;

pub use decide::whole::plan;

// The reply to a line. It stays an enum of three: what prints nothing is no error, and a refusal has its line beside its number.
#[derive(Clone, Copy)]
enum Reply {
    // An accepted origin prints nothing.
    Nothing,
    // A position's name, easting and northing, in millimetres.
    Projected(chain::Id, i64, i64),
    // The line's number, the refusal's, and the place in the line: 0 but for a line of bad form.
    Refused(u64, u8, u8),
}

// What has been read so far.
#[derive(Clone, Copy)]
struct State {
    // The number of the line to come, from 1.
    line: u64,
    // The accepted origin's values, made once for all positions.
    origin: Option<angle::Origin>,
}

// What is decided on a line: the reply to it, and the state after it.
#[derive(Clone, Copy)]
struct Decided {
    reply: Reply,
    state: State,
}
