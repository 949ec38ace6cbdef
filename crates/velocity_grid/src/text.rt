// A grid out of its text: every line examined first, then the numbers of its nodes.
ghost use Rattle.std.specs.Prelude.{◌≡◌, ◌≤◌, ◌*◌, ◌+◌, length, drop, Ok, Some};
ghost use Rattle.std.proofs.lemmas.List.Edits.{sets};
ghost use Rattle.line.specs.Lines.{lines};
ghost use Rattle.line.specs.Readers.{read_node};
ghost use Rattle.line.specs.Answers as line-answers;
ghost use Rattle.velocity_grid.specs.Answers.{fault_told, examined, grid_told};
ghost use Rattle.velocity_grid.specs.Text.{miscounted, on_line, node_fault, nodes_fault, headed, grid_of, without_value, values_of, three_numbers, nodes_in, grid_numbers, room_after};
ghost use Rattle.velocity_grid.specs.Reading.{awaited_fault};

use crate::{GridFault, Nodes, header};
use line::{Fault, GridHeader, VelocityParts};
use refusal::Refusal;

// A number for a node that has no value, past every part's range.
const NO_VALUE: i64 = 9999;

// Lines are missing, or something is left over.
fn miscounted() -> GridFault
    ensures { fault_told result ≡ miscounted }
{
    GridFault {
        refusal: Refusal::Lines,
        line: 0,
        place: 0,
    }
}

fn on_line(line: u16, fault: Fault) -> GridFault
    ensures { fault_told result ≡ on_line line (line-answers.fault_told fault) }
{
    GridFault {
        refusal: fault.refusal,
        line,
        place: fault.place,
    }
}

// What is wrong with the parts of a node on this line, if anything is.
fn parts_fault(line: u16, p: VelocityParts) -> Result<(), GridFault>
    ensures { examined result ≡ node_fault line (Ok (Some p)) }
{
    if ranges::three_within(-2500, p.east, p.north, p.up, 2500) {
        return Ok(());
    }
    Err(GridFault {
        refusal: Refusal::Range,
        line,
        place: 0,
    })
}

// What is wrong with a node's line, if anything is; an empty one is missing.
fn awaited_fault(text: &[u8], line: u16) -> Result<(), GridFault>
    ensures { examined result ≡ awaited_fault line text.now }
{
    if text.is_empty() {
        return Err(miscounted());
    }
    match line::read_node(text) {
        Err(fault) => Err(on_line(line, fault)),
        Ok(None) => Ok(()),
        Ok(Some(p)) => parts_fault(line, p),
    }
}

// What is wrong with the lines of so many nodes, from byte `start` on: the first fault, or that lines are missing or left over.
fn nodes_fault(text: &[u8], start: usize, count: usize) -> Result<(), GridFault>
    requires { (start ≤ length text.now) × (count ≤ 4000) }
    ensures { examined result ≡ nodes_fault count 2 (lines (drop start text.now)) }
{
    let mut from = start;
    for number in 2..count as u16 + 2 {
        let end = line::line_end(text, from);
        awaited_fault(&text[from..end], number)?;
        from = end;
    }
    if from < text.len() {
        return Err(miscounted());
    }
    Ok(())
}

// A grid whose header line has good form: its ranges, then its nodes, from byte `start` on.
fn with_header(text: &[u8], start: usize, g: GridHeader) -> Result<GridHeader, GridFault>
    requires { start ≤ length text.now }
    ensures { grid_told result ≡ headed (Ok g) (lines (drop start text.now)) }
{
    if !header::in_range(g) {
        return Err(GridFault {
            refusal: Refusal::Range,
            line: 1,
            place: 0,
        });
    }
    nodes_fault(text, start, header::nodes(g.rows, g.columns))?;
    Ok(g)
}

// A grid's text, examined whole: its header; or why it is none. Refused is the first line with a fault, with its number from 1 and the place in it: Length,
// Letter (of the header alone), Count, Plain, then Range, which has place 0; then Lines, which has line and place 0, where lines are missing or anything is
// left over.
pub fn check_grid(text: &[u8]) -> Result<GridHeader, GridFault>
    ensures { grid_told result ≡ grid_of text.now }
{
    if text.is_empty() {
        return Err(miscounted());
    }
    let end = line::line_end(text, 0);
    match line::read_grid_header(&text[..end]) {
        Err(fault) => Err(on_line(1, fault)),
        Ok(g) => with_header(text, end, g),
    }
}

fn no_value() -> VelocityParts
    ensures { result ≡ without_value }
{
    VelocityParts {
        east: NO_VALUE,
        north: NO_VALUE,
        up: NO_VALUE,
    }
}

// The parts of a node's line, NO_VALUE where it has none.
fn values(text: &[u8]) -> VelocityParts
    ensures { result ≡ values_of (read_node text.now) }
{
    match line::read_node(text) {
        Ok(Some(p)) => p,
        Ok(None) => no_value(),
        Err(_) => no_value(),
    }
}

// Puts the three numbers of a node's line into the room from `at` on.
fn put_node(nodes: &mut Nodes, at: usize, text: &[u8])
    requires { at + 3 ≤ 12000 }
    ensures { nodes.new ≡ sets nodes.old at (three_numbers (values_of (read_node text.now))) }
{
    let p = values(text);
    nodes[at..at + 3].copy_from_slice(&[p.east, p.north, p.up]);
}

// The numbers of all nodes, whose lines stand from byte `start` on.
fn fill(text: &[u8], start: usize, nodes: &mut Nodes)
    requires { (start ≤ length text.now) × (3 * length (lines (drop start text.now)) ≤ 12000) }
    ensures { nodes.new ≡ sets nodes.old 0 (nodes_in (lines (drop start text.now))) }
{
    let mut from = start;
    let mut at: usize = 0;
    // stays a while: a turn goes on by a whole line
    while from < text.len() {
        let end = line::line_end(text, from);
        put_node(nodes, at, &text[from..end]);
        at += 3;
        from = end;
    }
}

// A grid out of its text: the header, and into the room three numbers a node, 9,999 each for a node without a value; the rest of the room stays as it was.
// Refused as check_grid refuses, and then nothing is written.
pub fn read_grid(text: &[u8], nodes: &mut Nodes) -> Result<GridHeader, GridFault>
    ensures { (grid_told result ≡ grid_of text.now) × (nodes.new ≡ room_after (grid_of text.now) (grid_numbers text.now) nodes.old) }
{
    let g = check_grid(text)?;
    fill(text, line::line_end(text, 0), nodes);
    Ok(g)
}
