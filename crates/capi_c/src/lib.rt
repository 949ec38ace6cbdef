// The functions of `capi` for C, under their own names and with the same clauses. Written by tools/exports.py; include/swivelcrane.h tells each call's
// units, lengths and answers.
#![tactic(auto)]

pub mod conversion;
pub mod fragments;
pub mod from_xyz;
pub mod geodetic;
pub mod grid;
pub mod joining;
pub mod later;
pub mod printing;
pub mod projected;
pub mod rounded;
pub mod row;
pub mod rso;
