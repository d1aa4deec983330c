// The circuit unfolded over several clock steps: its records, step by step.
#![tactic(auto)]

ghost use Rattle.std.specs.Prelude.{◌≡◌, ◌+◌, ◌*◌, ◌≤◌, ◌<◌, length};
ghost use Rattle.ground.specs.Put.{Put};
ghost use Rattle.circuit.specs.Record.{kind_at};
ghost use Rattle.records.specs.Owed.{record_of};
ghost use Rattle.states.specs.States.{data_line};
ghost use Rattle.states.specs.Rules.{lines_after};
ghost use Rattle.unfolded.specs.Unfolded.{step_out, step_record, unfolded};
ghost use Rattle.unfold.specs.Promise.{UnfoldingMade};
ghost use Rattle.unfold.specs.Owed.{UnfoldingReady, UnfoldReady, RoomDone, MarkDataReady, MarkDataDone, UnfoldInReady, DataMarkedReady, StepLineReady};
ghost use Rattle.unfold.specs.Owed.{held_by, moved_pin, MovedReady, HeldReady, step_to};

use answers::{Reason, Refusal};
use circuit::source;
use gates::pins;
use ground::narrow;
use records::put_record;
use states::{check_clocked, data_line, state_record};

// How many lines a circuit has after unfolding.
#[derive(Clone, Copy, Debug, PartialEq, Eq)]
pub struct Unfolding {
    pub lines: usize,
}

// ---- a mark at each data line, so that no record is looked for where the last step's outputs are written

fn mark_data(states: &[u8], marks: &mut [u8])
    requires { MarkDataReady states.now marks.old }
    ensures { MarkDataDone states.now marks.new }
{
    for r in 0..states.len() / 4 {
        marks[data_line(states, r)] = 1;
    }
}

// ---- the record of line m of step i; each writer answers the place after what it wrote

// Outputs stay, and the data lines of the last step become outputs.
fn step_out(
    circuit: &[u8],
    states: &[u8],
    marks: &[u8],
    n: usize,
    steps: usize,
    i: usize,
    m: usize,
) -> u8
    requires { StepLineReady circuit.now states.now marks.now n steps i m }
    ensures { result ≡ step_out circuit.now states.now steps i m }
{
    let before_last = i + 1 != steps;
    if before_last {
        return circuit[8 * m + 1];
    }
    if marks[m] == 1 {
        return 1;
    }
    circuit[8 * m + 1]
}

// The state record of a line that holds a value in a later step, or the number of records. Only an input is looked for among the records.
fn held_by(
    circuit: &[u8],
    states: &[u8],
    marks: &[u8],
    n: usize,
    steps: usize,
    i: usize,
    m: usize,
) -> usize
    requires { StepLineReady circuit.now states.now marks.now n steps i m }
    ensures { result ≡ held_by states.now i m }
{
    if i < 1 {
        return states.len() / 4;
    }
    if circuit[8 * m] != 0 {
        return states.len() / 4;
    }
    state_record(states, m)
}

// What pin s reads, so many lines further on.
fn moved(circuit: &[u8], m: usize, s: usize, further: usize) -> u16
    requires { MovedReady circuit.now m further × (1 ≤ s) × (s ≤ 3) }
    ensures { result ≡ moved_pin circuit.now m s further }
{
    if s <= pins(circuit[8 * m]) {
        return narrow(further + source(circuit, m, s));
    }
    0
}

// The record of line m with its sources so many lines further on.
fn put_moved(
    circuit: &[u8],
    m: usize,
    further: usize,
    flag: u8,
    buffer: &mut [u8],
    at: usize,
) -> usize
    requires { MovedReady circuit.now m further × (at + 8 ≤ length buffer.old) }
    ensures { Put buffer.old buffer.new at
        (record_of (kind_at circuit.now m) flag (moved_pin circuit.now m 1 further) (moved_pin circuit.now m 2 further) (moved_pin circuit.now m 3 further)) result }
{
    let first = moved(circuit, m, 1, further);
    let second = moved(circuit, m, 2, further);
    let third = moved(circuit, m, 3, further);
    put_record(buffer, at, circuit[8 * m], flag, first, second, third)
}

// A buffer of the data line of record r, of the step that begins at line `before`.
fn put_held(states: &[u8], r: usize, before: usize, flag: u8, buffer: &mut [u8], at: usize) -> usize
    requires { HeldReady states.now r before × (at + 8 ≤ length buffer.old) }
    ensures { Put buffer.old buffer.new at (record_of 1 flag (before + data_line states.now r) 0 0) result }
{
    let from = narrow(before + data_line(states, r));
    put_record(buffer, at, 1, flag, from, 0, 0)
}

fn put_step_line(
    circuit: &[u8],
    states: &[u8],
    marks: &[u8],
    n: usize,
    steps: usize,
    i: usize,
    m: usize,
    buffer: &mut [u8],
    at: usize,
) -> usize
    requires { StepLineReady circuit.now states.now marks.now n steps i m × (at + 8 ≤ length buffer.old) }
    ensures { Put buffer.old buffer.new at (step_record circuit.now states.now steps i m) result }
{
    let flag = step_out(circuit, states, marks, n, steps, i, m);
    let r = held_by(circuit, states, marks, n, steps, i, m);
    if r < states.len() / 4 {
        return put_held(states, r, (i - 1) * n, flag, buffer, at);
    }
    put_moved(circuit, m, i * n, flag, buffer, at)
}

// ---- all lines

// The records of step i.
fn put_step(
    circuit: &[u8],
    states: &[u8],
    marks: &[u8],
    n: usize,
    steps: usize,
    i: usize,
    buffer: &mut [u8],
    from: usize,
) -> usize
    requires { DataMarkedReady circuit.now states.now marks.now n steps × (i < steps) × (from + 8 * n ≤ length buffer.old) }
    ensures { Put buffer.old buffer.new from (step_to circuit.now states.now steps i n) result }
{
    let mut at = from;
    for m in 0..n {
        at = put_step_line(circuit, states, marks, n, steps, i, m, buffer, at);
    }
    at
}

// The records of all steps.
fn put_steps(circuit: &[u8], states: &[u8], marks: &[u8], n: usize, steps: usize, buffer: &mut [u8])
    requires { DataMarkedReady circuit.now states.now marks.now n steps × (length buffer.old ≡ 8 * lines_after circuit.now steps) }
    ensures { buffer.new ≡ unfolded circuit.now states.now steps }
{
    let mut at = 0;
    for i in 0..steps {
        at = put_step(circuit, states, marks, n, steps, i, buffer, at);
    }
}

// In memory for the marks.
fn unfold_lines_in(
    circuit: &[u8],
    states: &[u8],
    n: usize,
    steps: usize,
    marks: &mut [u8],
    buffer: &mut [u8],
)
    requires { UnfoldInReady circuit.now states.now n steps marks.old buffer.old }
    ensures { buffer.new ≡ unfolded circuit.now states.now steps }
{
    mark_data(states, marks);
    put_steps(circuit, states, marks, n, steps, buffer);
}

// Writes the records of an accepted circuit of n lines over these steps.
pub fn unfold_lines(circuit: &[u8], states: &[u8], n: usize, steps: usize, buffer: &mut [u8])
    requires { UnfoldReady circuit.now states.now n steps buffer.old }
    ensures { buffer.new ≡ unfolded circuit.now states.now steps }
{
    let mut marks = [0u8; 2048];
    unfold_lines_in(circuit, states, n, steps, &mut marks[..n], buffer);
}

// ---- what is promised, whatever the bytes

// Refusal 10, where nothing else is refused.
fn unfold_checked(
    circuit: &[u8],
    states: &[u8],
    n: usize,
    steps: usize,
    buffer: &mut [u8],
) -> Result<Unfolding, Refusal>
    requires { UnfoldingReady circuit.now states.now n steps }
    ensures { RoomDone circuit.now states.now steps buffer.old result buffer.new }
{
    let lines = steps * n;
    if buffer.len() != 8 * lines {
        return Err(Refusal(Reason::BufferSize, 0));
    }
    unfold_lines(circuit, states, n, steps, buffer);
    Ok(Unfolding { lines })
}

// Writes the circuit unfolded over these steps, or gives the first refusal and writes nothing.
pub fn unfold(
    circuit: &[u8],
    states: &[u8],
    steps: usize,
    buffer: &mut [u8],
) -> Result<Unfolding, Refusal>
    ensures { UnfoldingMade circuit.now states.now steps buffer.old result buffer.new }
{
    let sizes = check_clocked(circuit, states, steps)?;
    unfold_checked(circuit, states, sizes.lines, steps, buffer)
}
