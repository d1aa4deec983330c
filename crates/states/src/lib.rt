// State records: what they say, and the check of a clocked circuit over several steps.
#![tactic(auto)]

ghost use Rattle.std.specs.Prelude.{◌≡◌, ◌*◌, ◌≤◌, length};
ghost use Rattle.ground.specs.Below.{first_failing};
ghost use Rattle.answers.specs.Rules.{refusal};
ghost use Rattle.circuit.specs.Record.{Inside};
ghost use Rattle.circuit.specs.Formed.{Known};
ghost use Rattle.states.specs.States.{data_line, state_line, state_record, is_free, free_before};
ghost use Rattle.states.specs.Rules.{state_ok, inputs_after, step_rules};
ghost use Rattle.states.specs.Owed.{StateInside, steps_ok, clocked_by, ClockedChecked};
ghost use Rattle.states.specs.Rules.{state_rules, after_rules};

use answers::{Reason, Refusal};
use circuit::check;
use little::pair_at;

// How many lines a step of an accepted clocked circuit has, and how many inputs it has after unfolding.
#[derive(Clone, Copy, Debug, PartialEq, Eq)]
pub struct Clocked {
    pub lines: usize,
    pub inputs: usize,
}

// ---- what a record says

// The data line of record r.
pub fn data_line(states: &[u8], r: usize) -> usize
    requires { StateInside states.now r }
    ensures { result ≡ data_line states.now r }
{
    pair_at(states, 4 * r)
}

// The state line of record r.
fn state_line(states: &[u8], r: usize) -> usize
    requires { StateInside states.now r }
    ensures { result ≡ state_line states.now r }
{
    pair_at(states, 4 * r + 2)
}

// The first record whose state line is m, or their number.
pub fn state_record(states: &[u8], m: usize) -> usize
    ensures { result ≡ state_record states.now m }
{
    let n = states.len() / 4;
    (0..n).find(|&r| state_line(states, r) == m).unwrap_or(n)
}

// ---- refusal 18: the records

// Both lines of record r are there, the state line is an input, and no earlier record has it.
fn state_ok(circuit: &[u8], states: &[u8], r: usize) -> bool
    requires { StateInside states.now r }
    ensures { result ≡ state_ok circuit.now states.now r }
{
    let n = circuit.len() / 8;
    let m = state_line(states, r);
    data_line(states, r) < n
        && m < n
        && circuit[8 * m] == 0
        && !(0..r).any(|q| state_line(states, q) == m)
}

// The first of n records that is bad.
fn first_bad_state(circuit: &[u8], states: &[u8], n: usize) -> Option<usize>
    requires { 4 * n ≤ length states.now }
    ensures { result ≡ first_failing n (state_ok circuit.now states.now) }
{
    (0..n).find(|&r| !state_ok(circuit, states, r))
}

// Whole records, each of which keeps its layout.
fn check_states(circuit: &[u8], states: &[u8]) -> Result<(), Refusal>
    ensures { result ≡ refusal (state_rules circuit.now states.now) }
{
    if states.len() % 4 != 0 {
        return Err(Refusal(Reason::StateRecords, 0));
    }
    let n = states.len() / 4;
    if let Some(bad) = first_bad_state(circuit, states, n) {
        return Err(Refusal(Reason::StateRecords, bad));
    }
    Ok(())
}

// ---- refusal 19: the sizes after unfolding

// Line m is an input and no state line. Only an input is looked for among the records.
fn is_free(circuit: &[u8], states: &[u8], m: usize) -> bool
    requires { Inside circuit.now m }
    ensures { result ≡ is_free circuit.now states.now m }
{
    if circuit[8 * m] != 0 {
        return false;
    }
    let held = state_record(states, m) < states.len() / 4;
    !held
}

// How many of n lines are.
fn free_inputs(circuit: &[u8], states: &[u8], n: usize) -> usize
    requires { 8 * n ≤ length circuit.now }
    ensures { (result ≡ free_before circuit.now states.now n) × (result ≤ n) }
{
    (0..n).filter(|&m| is_free(circuit, states, m)).count()
}

// The answer where the records are fine, by the sizes: n lines in a step.
fn sized(n: usize, lines: usize, inputs: usize) -> Result<Clocked, Refusal>
    ensures { result ≡ clocked_by (after_rules lines inputs) n inputs }
{
    if 2048 < lines {
        return Err(Refusal(Reason::UnfoldedSize, 0));
    }
    if 64 < inputs {
        return Err(Refusal(Reason::UnfoldedSize, 0));
    }
    Ok(Clocked { lines: n, inputs })
}

// ---- all of it

// Refusal 21: 1 to 8 steps.
fn steps_ok(steps: usize) -> bool
    ensures { result ≡ steps_ok steps }
{
    1 <= steps && steps <= 8
}

// Refusals 21, 18 and 19, of an accepted circuit.
fn check_steps(
    circuit: &[u8],
    n: usize,
    inputs: usize,
    states: &[u8],
    steps: usize,
) -> Result<Clocked, Refusal>
    requires { Known circuit.now n inputs }
    ensures { result ≡ clocked_by (step_rules circuit.now states.now steps) n (inputs_after circuit.now states.now steps) }
{
    if !steps_ok(steps) {
        return Err(Refusal(Reason::StepCount, 0));
    }
    check_states(circuit, states)?;
    let free = free_inputs(circuit, states, n);
    sized(n, steps * n, inputs + (steps - 1) * free)
}

// All that is checked of a clocked circuit: the lines of a step and the inputs after unfolding, or the first refusal.
pub fn check_clocked(circuit: &[u8], states: &[u8], steps: usize) -> Result<Clocked, Refusal>
    ensures { ClockedChecked circuit.now states.now steps result }
{
    let counts = check(circuit)?;
    check_steps(circuit, counts.lines, counts.inputs, states, steps)
}
