// Functions of f64, each in a written order of operations (docs/ORDERS.md). Every call answers for every f64: outside the arguments that a
// function names it loses accuracy, and nothing else.
#![tactic(auto)]

mod half;
mod heron;
mod hyperbolic;
mod series;

pub use half::{arcsine, arctangent};
pub use heron::root;
pub use hyperbolic::{artanh, artanh_small, cosh, sinh};
pub use series::{arctan_series, arctan_small, cosine, sine};
