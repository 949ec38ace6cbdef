// Swivelcrane for C: the libraries' functions on numbers and slices. include/swivelcrane.h tells each call's units, lengths and answers.
// Every call answers every input: 0 with its results written, or a refusal number, or WRONG_LENGTH, with nothing written.
#![tactic(auto)]

pub mod conversion;
pub mod fragments;
pub mod from_xyz;
pub mod geodetic;
pub mod grid;
pub mod joining;
pub mod later;
mod point_line;
pub mod printing;
pub mod projected;
pub mod rounded;
pub mod row;
pub mod rso;
mod state;
mod status;

// An array that has not the number of elements that its call asks for. It comes before every refusal.
const WRONG_LENGTH: i64 = 255;

// Minus its number, where a call answers with a length or a count, which is never below 0.
const NO_ROOM: i64 = -255;
