// What each field of a line is to be, by the line's mark and, of a step, by its kind. The mark is the first letter, but for the lines of a velocity grid.
ghost use Rattle.std.specs.Prelude.{◌≡◌, ◌+◌, ◌∷◌, length};
ghost use Rattle.std.proofs.Math.ListN.{get_elem?};
ghost use Rattle.line.specs.Bytes.{letter_b};
ghost use Rattle.line.specs.Malformed.{identifier, numbers, kind_shape};
ghost use Rattle.line.specs.SecondLook.{class_of, step_rest, lettered_of, grid_classes, classes_of};

// The mark of a velocity grid's header, which begins with G as a position does, and of its nodes, which begin with no letter.
pub const GRID: u8 = b'g';

pub const NODE: u8 = b'-';

// This one letter; the kind of a step; the convention of a Bursa-Wolf step; an id; a number; or no field at all.
#[derive(Clone, Copy)]
pub enum Awaited {
    Letter(u8),
    Kind,
    Convention,
    Identifier,
    Number,
    Nothing,
}

// The field `index`, from 0, of so many numbers.
fn number_at(index: usize, count: usize) -> Awaited
    ensures { class_of result ≡ get_elem? (numbers count) index }
{
    if index < count {
        Awaited::Number
    } else {
        Awaited::Nothing
    }
}

// Of an id and so many numbers.
fn named_at(index: usize, count: usize) -> Awaited
    ensures { class_of result ≡ get_elem? (identifier ∷ numbers count) index }
{
    if index == 0 {
        Awaited::Identifier
    } else {
        number_at(index - 1, count)
    }
}

// Of a convention and seven numbers.
fn convention_at(index: usize) -> Awaited
    ensures { class_of result ≡ get_elem? (kind_shape letter_b) index }
{
    if index == 0 {
        Awaited::Convention
    } else {
        number_at(index - 1, 7)
    }
}

// Of what a step has after its second epoch.
fn by_kind_at(kind: u8, index: usize) -> Awaited
    ensures { class_of result ≡ get_elem? (kind_shape kind) index }
{
    match kind {
        b'T' | b'V' => number_at(index, 3),
        b'B' => convention_at(index),
        _ => Awaited::Nothing,
    }
}

// Of what a step has after its first letter.
fn step_at(kind: u8, index: usize) -> Awaited
    ensures { class_of result ≡ get_elem? (step_rest kind) index }
{
    if index == 0 {
        return Awaited::Kind;
    }
    if index < 5 {
        return Awaited::Number;
    }
    by_kind_at(kind, index - 5)
}

// Of a whole line that begins with a letter of its own.
fn lettered_at(first: u8, kind: u8, index: usize) -> Awaited
    ensures { class_of result ≡ get_elem? (lettered_of first kind) index }
{
    if index == 0 {
        return Awaited::Letter(first);
    }
    let i = index - 1;
    match first {
        b'P' => named_at(i, 7),
        b'S' => step_at(kind, i),
        b'O' => number_at(i, 5),
        b'G' => named_at(i, 2),
        b'E' => number_at(i, 1),
        _ => Awaited::Nothing,
    }
}

// Of the header of a velocity grid.
fn grid_at(index: usize) -> Awaited
    ensures { class_of result ≡ get_elem? grid_classes index }
{
    if index == 0 {
        return Awaited::Letter(b'G');
    }
    number_at(index - 1, 5)
}

// Of a whole line.
pub fn class_at(mark: u8, kind: u8, index: usize) -> Awaited
    ensures { class_of result ≡ get_elem? (classes_of mark kind) index }
{
    match mark {
        NODE => number_at(index, 3),
        GRID => grid_at(index),
        _ => lettered_at(mark, kind, index),
    }
}

// How many fields a step line is to have, by its kind.
fn step_count(kind: u8) -> usize
    ensures { result ≡ length (step_rest kind) + 1 }
{
    match kind {
        b'T' | b'V' => 9,
        b'B' => 14,
        _ => 6,
    }
}

// How many fields a line is to have that begins with a letter of its own.
fn lettered_count(first: u8, kind: u8) -> usize
    ensures { result ≡ length (lettered_of first kind) }
{
    match first {
        b'P' => 9,
        b'S' => step_count(kind),
        b'O' => 6,
        b'G' => 4,
        b'E' => 2,
        _ => 1,
    }
}

// How many fields a line is to have.
pub fn count_of(mark: u8, kind: u8) -> usize
    ensures { result ≡ length (classes_of mark kind) }
{
    match mark {
        NODE => 3,
        GRID => 6,
        _ => lettered_count(mark, kind),
    }
}
