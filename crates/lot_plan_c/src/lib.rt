// The function of `lot_plan` for C, under its own name and with the same clauses. Written by tools/exports.py; include/swivelcrane_lot_plan.h tells the
// call's units, lengths and answers.
#![tactic(auto)]

pub mod lot;
