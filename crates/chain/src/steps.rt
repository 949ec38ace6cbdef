// One step: made ready, and applied to positions. What the step alone decides is worked out once. Conversion is a module below, so that what these ask stays here.
ghost use Rattle.std.specs.Prelude.{◌≡◌, ◌≤◌, ℤ, pos, nat_abs, neg_ℤ, ◌+ℤ◌, ◌-ℤ◌, ◌*ℤ◌};
ghost use Rattle.chain.specs.Faults.{StepOk};
ghost use Rattle.chain.specs.Parts.{Parts, step_round, by_convention, rotation11, scaled_rotation, at_epoch, part, over11, gain, plus, minus};
ghost use Rattle.chain.specs.Rows.{row_of};
ghost use Rattle.chain.specs.Axes.{Small};
ghost use Rattle.chain.specs.Ways.{by_way, by_turns, GainsBy};
ghost use Rattle.chain.specs.Ready.{position, moved_of, turn_of, frame_scale, ready_for, turn_parts, slope_parts, ready_parts, TurnOk, ScaleOk, PartOk, LinearOk};

use crate::{BursaWolf, Convention, Direction, Kind, Position, Shift, Step, Velocity};

pub mod convert;
pub mod kept;
mod lifted;

// Bursa-Wolf: shifts in units, rotations in 10^-11 radian by convention P, scale in 10^-11.
#[derive(Clone, Copy)]
pub struct Turn {
    pub dx: i64,
    pub dy: i64,
    pub dz: i64,
    pub rx: i64,
    pub ry: i64,
    pub rz: i64,
    pub s: i64,
}

// A frame: each axis gains (k + slope·coordinate)/10^14.
#[derive(Clone, Copy)]
pub struct Scale {
    pub kx: i64,
    pub ky: i64,
    pub kz: i64,
    pub slope: i64,
}

// A shift or a velocity gains the same everywhere.
#[derive(Clone, Copy)]
pub enum Ready {
    Fixed(Position),
    Turned(Turn),
    Scaled(Scale),
}

// The ITRF rows: T x, y, z in units; Tv x, y, z in units a year; D in 10^-11; Dv in 10^-11 a year. ITRF2000 for datums 5 to 8, ITRF2008 for datum 9.
const ROWS: [[i64; 8]; 2] = [
    [70, 120, -2610, 10, 10, -190, 212, 11],
    [160, 190, 240, 0, 0, -10, -2, 3],
];

// The row of the datum that a frame step begins at.
fn row(datum: i64) -> [i64; 8]
    ensures { result ≡ row_of datum }
{
    if ranges::equal(9, datum) {
        return ROWS[1];
    }
    ROWS[0]
}

// A rotation as convention P has it.
fn by_convention(convention: Convention, r: i64) -> i64
    requires { nat_abs r ≤ 1000000 }
    ensures { result ≡ by_convention convention r }
{
    match convention {
        Convention::PositionVector => r,
        Convention::CoordinateFrame => 0 - r,
    }
}

// 0.00001" to the nearest 10^-11 radian.
fn rotation11(r: i64) -> i64
    requires { nat_abs r ≤ 1000000 }
    ensures { result ≡ rotation11 r }
{
    lifted::over11(0, r * 484813681110)
}

// A rotation in 10^-11 radian with the scale on it, to the nearest.
fn scaled_rotation(r: i64, s: i64) -> i64
    requires { (nat_abs r ≤ 4848137) × (nat_abs s ≤ 2000000) }
    ensures { result ≡ scaled_rotation r s }
{
    lifted::over11(0, r * (100000000000 + s))
}

// A rotation as it is applied.
fn turned(convention: Convention, r: i64, s: i64) -> i64
    requires { (nat_abs r ≤ 1000000) × (nat_abs s ≤ 2000000) }
    ensures { result ≡ scaled_rotation (rotation11 (by_convention convention r)) s }
{
    scaled_rotation(rotation11(by_convention(convention, r)), s)
}

fn bursa_wolf_ready(step: Step, t: BursaWolf) -> Turn
    requires { (StepOk step) × (step.kind ≡ Kind.BursaWolf t) }
    ensures { result ≡ turn_of t }
{
    let c = t.convention;
    let rx = turned(c, t.rx, t.s);
    let ry = turned(c, t.ry, t.s);
    let rz = turned(c, t.rz, t.s);
    Turn {
        dx: t.dx,
        dy: t.dy,
        dz: t.dz,
        rx,
        ry,
        rz,
        s: t.s,
    }
}

fn shift_ready(t: Shift) -> Position
    ensures { result ≡ position t.dx t.dy t.dz }
{
    Position {
        x: t.dx,
        y: t.dy,
        z: t.dz,
    }
}

// v units a year over dt thousandths of a year.
fn moved(v: i64, dt: i64) -> i64
    requires { (nat_abs v ≤ 10000) × (nat_abs dt ≤ 120000) }
    ensures { result ≡ step_round (v *ℤ dt) 1000 }
{
    lifted::over3(v * dt)
}

fn velocity_ready(step: Step, t: Velocity) -> Position
    requires { (StepOk step) × (step.kind ≡ Kind.Velocity t) }
    ensures { result ≡ moved_of t (step.after.epoch -ℤ step.before.epoch) }
{
    let before = step.before;
    let after = step.after;
    let dt = after.epoch - before.epoch;
    let x = moved(t.vx, dt);
    let y = moved(t.vy, dt);
    let z = moved(t.vz, dt);
    Position { x, y, z }
}

// A figure of a row with its rate, dt thousandths of a year on, in thousandths.
fn at_epoch(t: i64, tv: i64, dt: i64) -> i64
    requires { (nat_abs t ≤ 2610) × (nat_abs tv ≤ 190) × (nat_abs dt ≤ 90000) }
    ensures { result ≡ at_epoch t tv dt }
{
    1000 * t + tv * dt
}

// A row's shift on an axis, over 10^14 and with the sign that the step gives it.
fn shift_over14(t: i64, tv: i64, dt: i64) -> i64
    requires { (nat_abs t ≤ 2610) × (nat_abs tv ≤ 190) × (nat_abs dt ≤ 90000) }
    ensures { result ≡ neg_ℤ (at_epoch t tv dt *ℤ pos 100000000000) }
{
    0 - at_epoch(t, tv, dt) * 100000000000
}

fn frame_ready(step: Step) -> Scale
    requires { (StepOk step) × (step.kind ≡ Kind.Frame) }
    ensures { result ≡ frame_scale (row_of step.before.datum) (step.before.epoch -ℤ pos 2010000) }
{
    let before = step.before;
    let dt = before.epoch - 2010000;
    let f = row(before.datum);
    let kx = shift_over14(f[0], f[3], dt);
    let ky = shift_over14(f[1], f[4], dt);
    let kz = shift_over14(f[2], f[5], dt);
    let slope = 0 - at_epoch(f[6], f[7], dt);
    Scale { kx, ky, kz, slope }
}

// A step that is not refused, made ready.
fn prepare(step: Step) -> Ready
    requires { StepOk step }
    ensures { result ≡ ready_for step }
{
    match step.kind {
        Kind::Shift(t) => Ready::Fixed(shift_ready(t)),
        Kind::Velocity(t) => Ready::Fixed(velocity_ready(step, t)),
        Kind::BursaWolf(t) => Ready::Turned(bursa_wolf_ready(step, t)),
        Kind::Frame => Ready::Scaled(frame_ready(step)),
    }
}

fn linear(a: i64, b: i64, c: i64, p: Position) -> i64
    requires { LinearOk a b c p }
    ensures { (result ≡ a *ℤ p.x +ℤ b *ℤ p.y +ℤ c *ℤ p.z) × (nat_abs result ≤ 8000000000000000000) }
{
    a * p.x + b * p.y + c * p.z
}

// k + (a·X + b·Y + c·Z)/10^11, rounded once. k·10^11 can pass i64, so the whole part stays by itself.
fn turn_part(k: i64, a: i64, b: i64, c: i64, p: Position) -> i64
    requires { PartOk k a b c p }
    ensures { result ≡ part (over11 k a b c) p }
{
    lifted::over11(k, linear(a, b, c, p))
}

fn turn_gain(t: Turn, p: Position) -> Position
    requires { (TurnOk t) × (Small 650000000000 p) }
    ensures { result ≡ gain (turn_parts t) p }
{
    let x = turn_part(t.dx, t.s, 0 - t.rz, t.ry, p);
    let y = turn_part(t.dy, t.rz, t.s, 0 - t.rx, p);
    let z = turn_part(t.dz, 0 - t.ry, t.rx, t.s, p);
    Position { x, y, z }
}

// (k + slope·z)/10^14, rounded once. With the rows' figures the numerator fits i64.
fn scale_part(k: i64, slope: i64, z: i64) -> i64
    requires { (nat_abs k ≤ 1971000000000000000) × (nat_abs slope ≤ 1202000) × (nat_abs z ≤ 650000000000) }
    ensures { result ≡ step_round (k +ℤ slope *ℤ z) 100000000000000 }
{
    lifted::over14(k + slope * z)
}

fn scale_gain(t: Scale, p: Position) -> Position
    requires { (ScaleOk t) × (Small 650000000000 p) }
    ensures { result ≡ gain (slope_parts t.kx t.ky t.kz t.slope) p }
{
    let x = scale_part(t.kx, t.slope, p.x);
    let y = scale_part(t.ky, t.slope, p.y);
    let z = scale_part(t.kz, t.slope, p.z);
    Position { x, y, z }
}

fn plus(p: Position, g: Position) -> Position
    requires { (Small 650000000000 p) × (Small 180000000 g) }
    ensures { result ≡ plus p g }
{
    Position {
        x: p.x + g.x,
        y: p.y + g.y,
        z: p.z + g.z,
    }
}

fn minus(p: Position, g: Position) -> Position
    requires { (Small 650000000000 p) × (Small 180000000 g) }
    ensures { result ≡ minus p g }
{
    Position {
        x: p.x - g.x,
        y: p.y - g.y,
        z: p.z - g.z,
    }
}

// ---- A step either way, by what it is ready as: a function for each form, which is so never carried through memory. What takes a direction is
// inlined, so that each direction has a loop of its own: asked for at each step, it makes a prepared chain 1.4 times as slow.

// The turns of the inverse.
const TURNS: u8 = 3;

// By what it gains at a position: forward, p and what is gained there; the inverse, from p on, at each turn p less what is gained at the candidate.
#[inline(always)]
fn moved_by<G: Fn(Position) -> Position>(
    direction: Direction,
    turns: u8,
    gain: G,
    p: Position,
) -> Position
    requires near { Small 640000000000 p }
    requires callable { (c : Position) → Small 650000000000 c → G.pre gain c }
    requires small { (c g : Position) → Small 650000000000 c → G.post gain c g → Small 180000000 g }
    ensures { (t : Parts) → GainsBy t (G.post gain) → result ≡ by_turns direction turns t p }
{
    match direction {
        Direction::Forward => plus(p, gain(p)),
        Direction::Inverse => {
            let mut candidate = p;
            for _turn in 0..turns {
                candidate = minus(p, gain(candidate));
            }
            candidate
        }
    }
}

// What gains the same everywhere: one turn, since the candidate does not matter.
#[inline(always)]
fn fixed_by(direction: Direction, g: Position, p: Position) -> Position
    requires { (Small 100000000 g) × (Small 640000000000 p) }
    ensures { result ≡ by_way direction (ready_parts (Ready.Fixed g)) p }
{
    moved_by(direction, 1, |_| g, p)
}

#[inline(always)]
fn turn_by(direction: Direction, t: Turn, p: Position) -> Position
    requires { (TurnOk t) × (Small 640000000000 p) }
    ensures { result ≡ by_way direction (ready_parts (Ready.Turned t)) p }
{
    moved_by(direction, TURNS, |c| turn_gain(t, c), p)
}

#[inline(always)]
fn scale_by(direction: Direction, t: Scale, p: Position) -> Position
    requires { (ScaleOk t) × (Small 640000000000 p) }
    ensures { result ≡ by_way direction (ready_parts (Ready.Scaled t)) p }
{
    moved_by(direction, TURNS, |c| scale_gain(t, c), p)
}
