// S, kind, datum, epoch, datum, epoch, then T or V: three numbers; B: P or C, dx, dy, dz, rx, ry, rz, s; F: none.
ghost use Rattle.std.specs.Prelude.{◌≡◌, [], ◌∷◌};
ghost use Rattle.line.specs.Bytes.{letter_t, letter_v, letter_b, letter_f, letter_p, letter_c};
ghost use Rattle.line.specs.Fields.{letter_of};
ghost use Rattle.line.specs.Forms.{step_form, three_form, bursa_wolf_form, kind_form, shift, velocity, convention_of};
ghost use Rattle.line.specs.Answers.{line_told};
ghost use Rattle.line.specs.Readers.{read_step};
ghost use Rattle.line.specs.Reading.{Got, Told, Tail, itself, capped_step, capped_kind};

use crate::Unread;
use crate::field::{ByteField, letter, nowhere, single};
use crate::form::{Fields, body, read_form, three};
use crate::number::number;
use crate::second_look::{fault_of, is_counted};

// The field at `at` is one of these letters.
fn letter_in(s: &[u8], at: usize, letters: &[u8]) -> ByteField
    ensures { Got s.now itself (letter_of letters.now) at result.byte result.next }
{
    let c = single(s, at);
    if letters.contains(&c.byte) {
        c
    } else {
        ByteField {
            byte: 0,
            next: nowhere(s),
        }
    }
}

// The field at `at` is T, V, B or F.
pub fn kind_letter(s: &[u8], at: usize) -> ByteField
    ensures { Got s.now itself (letter_of (letter_t ∷ letter_v ∷ letter_b ∷ letter_f ∷ [])) at result.byte result.next }
{
    letter_in(s, at, b"TVBF")
}

// The field at `at` is P or C.
pub fn convention_letter(s: &[u8], at: usize) -> ByteField
    ensures { Got s.now itself (letter_of (letter_p ∷ letter_c ∷ [])) at result.byte result.next }
{
    letter_in(s, at, b"PC")
}

fn convention_of(l: u8) -> chain::Convention
    ensures { result ≡ convention_of l }
{
    if l == b'P' {
        chain::Convention::PositionVector
    } else {
        chain::Convention::CoordinateFrame
    }
}

fn shift_fields(s: &[u8], at: usize) -> Fields<chain::Kind>
    ensures { Tail s.now capped_kind (three_form shift) at result.record result.next }
{
    three(s, at, |dx, dy, dz| {
        chain::Kind::Shift(chain::Shift { dx, dy, dz })
    })
}

// stays beside `shift_fields`: each says what its three numbers are
fn velocity_fields(s: &[u8], at: usize) -> Fields<chain::Kind>
    ensures { Tail s.now capped_kind (three_form velocity) at result.record result.next }
{
    three(s, at, |vx, vy, vz| {
        chain::Kind::Velocity(chain::Velocity { vx, vy, vz })
    })
}

fn bursa_wolf_fields(s: &[u8], at: usize) -> Fields<chain::Kind>
    ensures { Tail s.now capped_kind bursa_wolf_form at result.record result.next }
{
    let l = convention_letter(s, at);
    let dx = number(s, l.next);
    let dy = number(s, dx.next);
    let dz = number(s, dy.next);
    let rx = number(s, dz.next);
    let ry = number(s, rx.next);
    let rz = number(s, ry.next);
    let scale = number(s, rz.next);
    let convention = convention_of(l.byte);
    Fields {
        record: chain::Kind::BursaWolf(chain::BursaWolf {
            convention,
            dx: dx.value,
            dy: dy.value,
            dz: dz.value,
            rx: rx.value,
            ry: ry.value,
            rz: rz.value,
            s: scale.value,
        }),
        next: scale.next,
    }
}

// What stands after the second epoch, by kind.
fn kind_fields(s: &[u8], at: usize, letter: u8) -> Fields<chain::Kind>
    ensures { Tail s.now capped_kind (kind_form letter) at result.record result.next }
{
    match letter {
        b'T' => shift_fields(s, at),
        b'V' => velocity_fields(s, at),
        b'B' => bursa_wolf_fields(s, at),
        _ => Fields {
            record: chain::Kind::Frame,
            next: at,
        },
    }
}

// The fields of a step line.
fn step_fields(s: &[u8]) -> Fields<chain::Step>
    ensures { Told s.now capped_step step_form 0 result.record result.next }
{
    let at = letter(s, 0, b'S');
    let l = kind_letter(s, at);
    let datum = number(s, l.next);
    let epoch = number(s, datum.next);
    let datum_after = number(s, epoch.next);
    let epoch_after = number(s, datum_after.next);
    let k = kind_fields(s, epoch_after.next, l.byte);
    let kind = k.record;
    Fields {
        record: chain::Step {
            kind,
            before: chain::Realization {
                datum: datum.value,
                epoch: epoch.value,
            },
            after: chain::Realization {
                datum: datum_after.value,
                epoch: epoch_after.value,
            },
        },
        next: k.next,
    }
}

// A step line under a profile (2009 or 2021): its step; malformed (LENGTH, LETTER, COUNT, PLAIN); or RANGE, EPOCH, PROFILE, KIND.
pub fn read_step(profile: i64, line: &[u8]) -> Result<chain::Step, Unread>
    ensures { line_told result ≡ read_step profile line.now }
{
    // Nearly every bad step line is cut short: of these no number is read.
    let s = body(line)?;
    if !is_counted(s, b'S') {
        // As a new slice, as where `read_placed` (point_line.rt) says why.
        fault_of(&line[..line.len()], b'S')?;
    }
    let step = read_form(line, b'S', step_fields)?;
    chain::step_fault(profile, step)?;
    Ok(step)
}
