// The circuit's records: reading their fields, the layout rule, and part 1, the circuit check.
#![tactic(auto)]

ghost use Rattle.std.specs.Prelude.{◌≡◌, ◌*◌, ◌≤◌, length};
ghost use Rattle.answers.specs.Rules.{refusal};
ghost use Rattle.circuit.specs.Record.{pin_at, Inside};
ghost use Rattle.circuit.specs.Layout.{pin_ok};
ghost use Rattle.circuit.specs.BadByte.{first_byte, bad_field};
ghost use Rattle.circuit.specs.Owed.{limit_of, CountLinesDone};
ghost use Rattle.circuit.specs.Promise.{count_rules, counted_of, Checks};

use answers::{Reason, Refusal, records_ok};
use gates::{LAST_KIND, pins};
use little::pair_at;

// The most inputs of a circuit.
const MOST_INPUTS: usize = 64;

// How many lines, inputs and outputs an accepted circuit has.
#[derive(Clone, Copy, Debug, PartialEq, Eq)]
pub struct Counts {
    pub lines: usize,
    pub inputs: usize,
    pub outputs: usize,
}

// Lines that keep their layout, the inputs and outputs among them, and where in the record after them the first bad field begins, or 8.
#[derive(Drop)]
struct LineCounts {
    lines: usize,
    inputs: usize,
    outputs: usize,
    byte: usize,
}

// The source of pin s of line k.
pub fn source(circuit: &[u8], k: usize, s: usize) -> usize
    requires { Inside circuit.now k × (s ≤ 3) }
    ensures { result ≡ pin_at circuit.now k s }
{
    pair_at(circuit, 8 * k + 2 * s)
}

// What a source must be below: the line, or 1 where the kind lacks the pin.
fn limit(circuit: &[u8], k: usize, s: usize) -> usize
    requires { Inside circuit.now k }
    ensures { result ≡ limit_of circuit.now k s }
{
    let has = pins(circuit[8 * k]);
    if s <= has {
        return k;
    }
    1
}

// A source that the kind has is lower than the line, one that it lacks is 0. One comparison serves both: it is made for every pin of every line.
fn pin_ok(circuit: &[u8], k: usize, s: usize) -> bool
    requires { Inside circuit.now k × (s ≤ 3) }
    ensures { result ≡ pin_ok circuit.now k s }
{
    let from = source(circuit, k, s);
    from < limit(circuit, k, s)
}

// Where in the record of line k the first field begins that breaks its rule; 8 where every field keeps its rule.
fn bad_byte(circuit: &[u8], k: usize) -> usize
    requires { Inside circuit.now k }
    ensures { result ≡ first_byte (bad_field circuit.now k) }
{
    if LAST_KIND < circuit[8 * k] {
        return 0;
    }
    if 1 < circuit[8 * k + 1] {
        return 1;
    }
    if !pin_ok(circuit, k, 1) {
        return 2;
    }
    if !pin_ok(circuit, k, 2) {
        return 4;
    }
    if !pin_ok(circuit, k, 3) {
        return 6;
    }
    8
}

// The lines before the first of n that breaks its layout, counted in one pass. The output byte of a line that keeps its layout is 0 or 1.
fn count_lines(circuit: &[u8], n: usize) -> LineCounts
    requires { 8 * n ≤ length circuit.now }
    ensures { CountLinesDone circuit.now n result }
{
    let mut inputs = 0;
    let mut outputs = 0;
    for k in 0..n {
        let byte = bad_byte(circuit, k);
        if byte < 8 {
            return LineCounts {
                lines: k,
                inputs,
                outputs,
                byte,
            };
        }
        inputs += usize::from(circuit[8 * k] == 0);
        outputs += usize::from(circuit[8 * k + 1]);
    }
    LineCounts {
        lines: n,
        inputs,
        outputs,
        byte: 8,
    }
}

// Refusals 4 and 5.
fn check_counts(inputs: usize, outputs: usize) -> Result<(), Refusal>
    ensures { result ≡ refusal (count_rules inputs outputs) }
{
    if MOST_INPUTS < inputs {
        return Err(Refusal(Reason::ManyInputs, 0));
    }
    if outputs < 1 {
        return Err(Refusal(Reason::NoOutput, 0));
    }
    Ok(())
}

// The answer on a circuit whose records keep their layout.
fn counted(n: usize, inputs: usize, outputs: usize) -> Result<Counts, Refusal>
    ensures { result ≡ counted_of n inputs outputs }
{
    check_counts(inputs, outputs)?;
    Ok(Counts {
        lines: n,
        inputs,
        outputs,
    })
}

// Part 1: the numbers of lines, inputs and outputs, or the first refusal.
pub fn check(circuit: &[u8]) -> Result<Counts, Refusal>
    ensures { Checks circuit.now result }
{
    if !records_ok(circuit.len(), 8, 2048) {
        return Err(Refusal(Reason::CircuitSize, 0));
    }
    let n = circuit.len() / 8;
    let counts = count_lines(circuit, n);
    let bad = counts.lines;
    if bad < n {
        let place = 8 * bad + counts.byte;
        return Err(Refusal(Reason::CircuitLayout, place));
    }
    counted(n, counts.inputs, counts.outputs)
}
