// Worked cases of conversions and of refusals, proved by computation (specs/, proofs/). No code.
#![tactic(auto)]
