// The words of all lines for a group of up to 64 patterns, a lane each: of the good circuit, and of one with a single stuck-at fault.
// As in `simulate`, the loop over the lines knows no fault: the faulty circuit is simulated from the line after the fault's on, and where the circuit
// has several steps with the fault in each, from there to the fault's line in the next.
#![tactic(auto)]

ghost use Rattle.std.specs.Prelude.{◌≡◌, ◌++◌, ◌+◌, ◌*◌, ◌<◌, ◌≤◌, length, set, take, drop};
ghost use Rattle.circuit.specs.Record.{kind_at, Inside};
ghost use Rattle.circuit.specs.Formed.{WellFormed};
ghost use Rattle.lane_inputs.specs.Owed.{GroupReady};
ghost use Rattle.lanes.specs.Lanes.{laid};
ghost use Rattle.lanes.specs.Owed.{Lanewise};
ghost use Rattle.simulate.specs.Simulate.{unforced, stuck_at, stuck_in_steps};
ghost use Rattle.simulate.specs.Owed.{EndInside, StepsReady, input_or};
ghost use Rattle.lane_lines.specs.Lines.{lane_pattern, good_words};
ghost use Rattle.lane_lines.specs.Owed.{lanes_at, PairInside, LinesReady, LineDone, SimulateWordsDone, InputWordsDone, FaultLinesDone, ForcedLinesDone, GoodWordsReady, FaultyWordsReady, ForcedWordsDone};

use circuit::source;
use lane_inputs::input_lanes;
use lanes::{Lanes, gate_lanes, same_lanes};
use lists::Fault;

// The words of line k.
pub fn lanes_at(words: &[u64], k: usize) -> Lanes
    requires { PairInside words.now k }
    ensures { result ≡ lanes_at words.now k }
{
    Lanes {
        ones: words[2 * k],
        zeros: words[2 * k + 1],
    }
}

fn put_lanes(words: &mut [u64], k: usize, lanes: Lanes)
    requires { PairInside words.old k }
    ensures { words.new ≡ set (set words.old (2 * k) lanes.ones) (2 * k + 1) lanes.zeros }
{
    words[2 * k] = lanes.ones;
    words[2 * k + 1] = lanes.zeros;
}

// What line k is set to before its turn: an input to its values in the patterns, where `used` inputs stand below it.
fn input_or_x(circuit: &[u8], patterns: &[u8], inputs: usize, k: usize, used: usize) -> Lanes
    requires { Inside circuit.now k × GroupReady inputs patterns.now × (kind_at circuit.now k ≡ 0 → used < inputs) }
    ensures { result ≡ laid (λ i. input_or circuit.now (lane_pattern inputs patterns.now i) k used) }
{
    if circuit[8 * k] == 0 {
        return input_lanes(patterns, inputs, used);
    }
    Lanes { ones: 0, zeros: 0 }
}

// Gives every input's line its values in the patterns; every other line is X until its turn.
fn put_input_words(circuit: &[u8], patterns: &[u8], inputs: usize, words: &mut [u64], n: usize)
    requires { WellFormed circuit.now inputs n × GroupReady inputs patterns.now × (length words.old ≡ 2 * n) }
    ensures { InputWordsDone circuit.now inputs n patterns.now words.new }
{
    let mut used = 0;
    for k in 0..n {
        put_lanes(words, k, input_or_x(circuit, patterns, inputs, k, used));
        used += usize::from(circuit[8 * k] == 0);
    }
}

// The words of line k; an input's line has them already.
fn line_lanes(circuit: &[u8], words: &[u64], n: usize, k: usize) -> Lanes
    requires { LinesReady circuit.now n (length words.now) × (k < n) }
    ensures { LineDone unforced circuit.now n words.now k result }
{
    let kind = circuit[8 * k];
    if kind == 0 {
        return lanes_at(words, k);
    }
    let a = lanes_at(words, source(circuit, k, 1));
    let b = lanes_at(words, source(circuit, k, 2));
    let c = lanes_at(words, source(circuit, k, 3));
    gate_lanes(kind, a, b, c)
}

// Gives every line from `start` on its words, up to the line before `end`.
fn simulate_words(circuit: &[u8], words: &mut [u64], n: usize, start: usize, end: usize)
    requires { LinesReady circuit.now n (length words.old) × (start ≤ end) × (end ≤ n) }
    ensures { SimulateWordsDone circuit.now n words.old start end words.new }
{
    for k in start..end {
        let lanes = line_lanes(circuit, words, n, k);
        put_lanes(words, k, lanes);
    }
}

// The good words of all lines.
fn good_lines(circuit: &[u8], inputs: usize, patterns: &[u8], words: &mut [u64], n: usize)
    requires { WellFormed circuit.now inputs n × GroupReady inputs patterns.now × (length words.old ≡ 2 * n) }
    ensures { words.new ≡ good_words circuit.now inputs patterns.now n }
{
    put_input_words(circuit, patterns, inputs, words, n);
    simulate_words(circuit, words, n, 0, n);
}

// The first half of the work memory gets the good words.
pub fn good_words(circuit: &[u8], inputs: usize, patterns: &[u8], work: &mut [u64], n: usize)
    requires { GoodWordsReady circuit.now inputs n patterns.now (length work.old) }
    ensures { work.new ≡ good_words circuit.now inputs patterns.now n ++ drop (2 * n) work.old }
{
    let half = 2 * n;
    good_lines(circuit, inputs, patterns, &mut work[..half], n);
}

// What is seen at a site of the fault's line, where `lanes` would be without the fault: the stuck value is in every lane, those to spare too.
fn seen_lanes(fault: Fault, site: u8, lanes: Lanes) -> Lanes
    requires { fault.value ≤ 1 }
    ensures { Lanewise (stuck_at fault fault.line site) lanes result }
{
    if site == fault.site {
        return same_lanes(fault.value);
    }
    lanes
}

// The words of the fault's line.
fn stuck_lanes(circuit: &[u8], fault: Fault, words: &[u64], n: usize) -> Lanes
    requires { LinesReady circuit.now n (length words.now) × (fault.line < n) × (fault.value ≤ 1) }
    ensures { LineDone (stuck_at fault) circuit.now n words.now fault.line result }
{
    let line = fault.line;
    let kind = circuit[8 * line];
    if kind == 0 {
        return seen_lanes(fault, 0, lanes_at(words, line));
    }
    let i = source(circuit, line, 1);
    let j = source(circuit, line, 2);
    let select = source(circuit, line, 3);
    let a = seen_lanes(fault, 1, lanes_at(words, i));
    let b = seen_lanes(fault, 2, lanes_at(words, j));
    let c = seen_lanes(fault, 3, lanes_at(words, select));
    seen_lanes(fault, 0, gate_lanes(kind, a, b, c))
}

// Gives the fault's line its words, and then the lines after it, up to the line before `end`.
fn fault_lines(circuit: &[u8], fault: Fault, words: &mut [u64], n: usize, end: usize)
    requires { LinesReady circuit.now n (length words.old) × EndInside fault n end × (fault.value ≤ 1) }
    ensures { FaultLinesDone fault circuit.now n words.old end words.new }
{
    let line = fault.line;
    let lanes = stuck_lanes(circuit, fault, words, n);
    put_lanes(words, line, lanes);
    simulate_words(circuit, words, n, line + 1, end);
}

// Turns good words into faulty ones, with the fault in each step of so many lines: from its line in one to its line in the next.
fn step_lines(circuit: &[u8], fault: Fault, step: usize, words: &mut [u64], n: usize)
    requires { LinesReady circuit.now n (length words.old) × StepsReady fault step n × (fault.value ≤ 1) }
    ensures { ForcedLinesDone (stuck_in_steps step fault) circuit.now n words.old words.new }
{
    for line in (fault.line..n).step_by(step) {
        let here = Fault { line, ..fault };
        let next = line + step;
        fault_lines(circuit, here, words, n, next.min(n));
    }
}

// The second half of the work memory gets the faulty words, with the fault in each step of so many lines, where the first has the good ones.
pub fn faulty_words(circuit: &[u8], fault: Fault, step: usize, work: &mut [u64], n: usize)
    requires { FaultyWordsReady circuit.now fault step n (length work.old) }
    ensures { ForcedWordsDone (stuck_in_steps step fault) circuit.now n work.old work.new }
{
    let half = 2 * n;
    work.copy_within(..half, half);
    step_lines(circuit, fault, step, &mut work[half..], n);
}
