// Simulation with three values: the values of all lines, of the good circuit and of one with a single stuck-at fault.
// The loop over the lines knows no fault: the faulty circuit is simulated from the line after the fault's on, and where the circuit has several steps with
// the fault in each, from there to the fault's line in the next. All is said of patterns and stuck values that are 0, 1 or X, which every caller has; under
// others the gates give no value that is promised.
#![tactic(auto)]

ghost use Rattle.std.specs.Prelude.{◌≡◌, ◌++◌, ◌+◌, ◌<◌, ◌≤◌, length, take, drop};
ghost use Rattle.circuit.specs.Record.{kind_at, Inside};
ghost use Rattle.simulate.specs.Simulate.{unforced, stuck_at, stuck_in_steps};
ghost use Rattle.simulate.specs.Work.{good_of};
ghost use Rattle.simulate.specs.Owed.{Ordered, Shaped, AllSmall, GoodValuesReady, FaultyValuesReady, EndInside, StepsReady, input_or, line_in, PinsSmall, InputsFrom};
ghost use Rattle.simulate.specs.Owed.{ThreeValued, SimulateDone, SimulateFaultDone, ForcedDone, ForcedValuesDone};

use circuit::source;
use gates::gate;
use lists::Fault;

// The value of line k; an input's line has it already.
fn line_value(circuit: &[u8], values: &[u8], k: usize) -> u8
    requires { Ordered circuit.now (length values.now) × (k < length values.now) }
    ensures { PinsSmall unforced circuit.now values.now k → result ≡ line_in unforced circuit.now values.now k }
{
    let kind = circuit[8 * k];
    if kind == 0 {
        return values[k];
    }
    let i = source(circuit, k, 1);
    let j = source(circuit, k, 2);
    let select = source(circuit, k, 3);
    gate(kind, values[i], values[j], values[select])
}

// Gives every line from `start` on its value, up to the line before `end`.
fn simulate_lines(circuit: &[u8], values: &mut [u8], start: usize, end: usize)
    requires { Ordered circuit.now (length values.old) × (start ≤ end) × (end ≤ length values.old) }
    ensures { SimulateDone ThreeValued circuit.now values.old start end values.new }
{
    for k in start..end {
        values[k] = line_value(circuit, values, k);
    }
}

// What line k is set to before its turn: an input to its value in the pattern, where `used` inputs stand below it.
fn input_or(circuit: &[u8], pattern: &[u8], k: usize, used: usize) -> u8
    requires { Inside circuit.now k × (kind_at circuit.now k ≡ 0 → used < length pattern.now) }
    ensures { result ≡ input_or circuit.now pattern.now k used }
{
    if circuit[8 * k] == 0 {
        return pattern[used];
    }
    2
}

// Gives every input's line its value in the pattern.
fn put_inputs(circuit: &[u8], pattern: &[u8], values: &mut [u8])
    requires { Shaped circuit.now (length pattern.now) (length values.old) }
    ensures { InputsFrom circuit.now pattern.now values.new 0 }
{
    let mut used = 0;
    for (k, value) in values.iter_mut().enumerate() {
        *value = input_or(circuit, pattern, k, used);
        used += usize::from(circuit[8 * k] == 0);
    }
}

// The good values of all lines.
fn simulate(circuit: &[u8], pattern: &[u8], values: &mut [u8])
    requires { Shaped circuit.now (length pattern.now) (length values.old) × AllSmall pattern.now }
    ensures { values.new ≡ good_of circuit.now pattern.now (length values.old) }
{
    put_inputs(circuit, pattern, values);
    simulate_lines(circuit, values, 0, values.len());
}

// The first half of the work memory gets the good values.
pub fn good_values(circuit: &[u8], pattern: &[u8], work: &mut [u8], n: usize)
    requires { GoodValuesReady circuit.now pattern.now n (length work.old) }
    ensures { work.new ≡ good_of circuit.now pattern.now n ++ drop n work.old }
{
    simulate(circuit, pattern, &mut work[..n]);
}

// What is seen at a site of the fault's line, where v would be without the fault.
fn seen(fault: Fault, site: u8, v: u8) -> u8
    ensures { result ≡ stuck_at fault fault.line site v }
{
    if site == fault.site { fault.value } else { v }
}

// The value of the fault's line.
fn stuck_value(circuit: &[u8], fault: Fault, values: &[u8]) -> u8
    requires { Ordered circuit.now (length values.now) × (fault.line < length values.now) }
    ensures { PinsSmall (stuck_at fault) circuit.now values.now fault.line
        → result ≡ line_in (stuck_at fault) circuit.now values.now fault.line }
{
    let line = fault.line;
    let kind = circuit[8 * line];
    if kind == 0 {
        return seen(fault, 0, values[line]);
    }
    let i = source(circuit, line, 1);
    let j = source(circuit, line, 2);
    let select = source(circuit, line, 3);
    let a = seen(fault, 1, values[i]);
    let b = seen(fault, 2, values[j]);
    let c = seen(fault, 3, values[select]);
    seen(fault, 0, gate(kind, a, b, c))
}

// Gives the fault's line its value, and then the lines after it, up to the line before `end`.
fn simulate_fault(circuit: &[u8], fault: Fault, values: &mut [u8], end: usize)
    requires { Ordered circuit.now (length values.old) × EndInside fault (length values.old) end }
    ensures { SimulateFaultDone ThreeValued fault circuit.now values.old end values.new }
{
    let line = fault.line;
    let v = stuck_value(circuit, fault, values);
    values[line] = v;
    simulate_lines(circuit, values, line + 1, end);
}

// Turns good values into faulty ones, with the fault in each step of so many lines: from its line in one to its line in the next.
fn simulate_steps(circuit: &[u8], fault: Fault, step: usize, values: &mut [u8])
    requires { Ordered circuit.now (length values.old) × StepsReady fault step (length values.old) }
    ensures { ForcedDone ThreeValued (stuck_in_steps step fault) circuit.now values.old values.new }
{
    let lines = values.len();
    for line in (fault.line..lines).step_by(step) {
        let here = Fault { line, ..fault };
        let next = line + step;
        simulate_fault(circuit, here, values, next.min(lines));
    }
}

// The second half of the work memory gets the faulty values, where the first has the good ones.
pub fn faulty_values(circuit: &[u8], fault: Fault, work: &mut [u8], n: usize)
    requires { FaultyValuesReady circuit.now fault n (length work.old) }
    ensures { ForcedValuesDone (stuck_at fault) circuit.now n work.old work.new }
{
    work.copy_within(..n, n);
    simulate_fault(circuit, fault, &mut work[n..], n);
}

// The same where the fault is in each step of so many lines.
pub fn faulty_in_steps(circuit: &[u8], fault: Fault, step: usize, work: &mut [u8], n: usize)
    requires { FaultyValuesReady circuit.now fault n (length work.old) × StepsReady fault step n }
    ensures { ForcedValuesDone (stuck_in_steps step fault) circuit.now n work.old work.new }
{
    work.copy_within(..n, n);
    simulate_steps(circuit, fault, step, &mut work[n..]);
}
