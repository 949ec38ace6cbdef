// A velocity step out of a grid.
ghost use Rattle.std.specs.Prelude.{◌≡◌};
ghost use Rattle.refusal.specs.Refusals.{told};
ghost use Rattle.velocity_grid.specs.Step.{velocity_step, velocity_of, velocity_step_of};

use crate::at_point::parts_at;
use crate::turn::{in_units, turn};
use chain::{Kind, Realization, Step, Velocity};
use line::GridHeader;
use refusal::Refusal;

// The step of a velocity, on one datum, from one epoch to another.
fn velocity_step(v: Velocity, datum: i64, before: i64, after: i64) -> Step
    ensures { result ≡ velocity_step v datum before after }
{
    Step {
        kind: Kind::Velocity(v),
        before: Realization {
            datum,
            epoch: before,
        },
        after: Realization {
            datum,
            epoch: after,
        },
    }
}

// The velocity at a point (units of 0.00001") of a datum between two epochs (thousandths of a year), in units of 0.00001 m a year: the three parts, turned
// to X, Y and Z and rounded. Refused as parts_at refuses, then Range, Epoch, Kind for the datum and the epochs.
pub fn velocity_at(
    g: GridHeader,
    nodes: &[i64],
    latitude: i64,
    longitude: i64,
    datum: i64,
    before: i64,
    after: i64,
) -> Result<Velocity, Refusal>
    ensures { told result ≡ velocity_of g nodes.now latitude longitude datum before after }
{
    let p = parts_at(g, nodes, latitude, longitude)?;
    let v = in_units(turn(p, latitude, longitude))?;
    chain::step_fault(chain::LATEST, velocity_step(v, datum, before, after))?;
    Ok(v)
}

// The same as a step, from the epoch before to the epoch after.
pub fn step_at(
    g: GridHeader,
    nodes: &[i64],
    latitude: i64,
    longitude: i64,
    datum: i64,
    before: i64,
    after: i64,
) -> Result<Step, Refusal>
    ensures { told result ≡ velocity_step_of g nodes.now latitude longitude datum before after }
{
    let v = velocity_at(g, nodes, latitude, longitude, datum, before, after)?;
    Ok(velocity_step(v, datum, before, after))
}
