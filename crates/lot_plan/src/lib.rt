// Lot plans for the job tracker: a chain's text, a point line, an ellipsoid and a state origin make one line of the lot plan. The libraries below do each part;
// this crate puts them one after another. include/swivelcrane_lot_plan.h tells the call's units, lengths and answers.
#![tactic(auto)]

pub mod chain_text;

// A point on the state's grid: its label, easting and northing in millimetres.
#[derive(Clone, Copy)]
struct Lot {
    label: chain::Label,
    easting: i64,
    northing: i64,
}
