// The dictionary of a clocked circuit over several steps: each fault is in every step at once.
#![tactic(auto)]

ghost use Rattle.std.specs.Prelude.{◌≡◌, length};
ghost use Rattle.simulate.specs.Simulate.{stuck_in_steps};
ghost use Rattle.rows.specs.Table.{work_under};
ghost use Rattle.unfold_dictionary.specs.Promise.{StepsDictionary};
ghost use Rattle.unfold_dictionary.specs.Owed.{StepsChecked, LeaveReady, FillReady, FillInReady, FillDone};

use answers::Refusal;
use dictionary::check_rest;
use groups::fill_groups_in_steps;
use lists::read_fault;
use simulate::{faulty_in_steps, good_values};
use states::{Clocked, check_clocked};
use unfold::unfold_lines;

// Refusals 1, 2, 4, 5, 21, 18, 19 and 6 to 10. The lines of a step and the inputs after unfolding come back.
fn check_all_steps(
    circuit: &[u8],
    states: &[u8],
    steps: usize,
    faults: &[u8],
    patterns: &[u8],
    table: usize,
    work: usize,
) -> Result<Clocked, Refusal>
    ensures { StepsChecked circuit.now states.now steps faults.now patterns.now table work result }
{
    let sizes = check_clocked(circuit, states, steps)?;
    check_rest(
        circuit,
        sizes.inputs,
        faults,
        patterns,
        table,
        2 * (steps * sizes.lines),
        work,
    )?;
    Ok(sizes)
}

// Leaves in the work memory what the last pattern with the last fault gives.
fn leave_last(
    circuit: &[u8],
    n: usize,
    step: usize,
    inputs: usize,
    faults: &[u8],
    patterns: &[u8],
    work: &mut [u8],
)
    requires { LeaveReady circuit.now n step inputs faults.now patterns.now (length work.old) }
    ensures { work.new ≡ work_under (stuck_in_steps step) circuit.now n inputs faults.now patterns.now }
{
    let from = patterns.len() - inputs;
    let last = faults.len() / 8 - 1;
    let pattern = &patterns[from..];
    good_values(circuit, pattern, work, n);
    let fault = read_fault(faults, last);
    faulty_in_steps(circuit, fault, step, work, n);
}

// Fills the table by the unfolded circuit, 64 patterns at once, in memory for both. The engine's words are not what the work memory is to hold.
fn fill_in(
    circuit: &[u8],
    states: &[u8],
    n: usize,
    steps: usize,
    inputs: usize,
    faults: &[u8],
    patterns: &[u8],
    unfolded: &mut [u8],
    words: &mut [u64],
    table: &mut [u8],
    work: &mut [u8],
)
    requires { FillInReady circuit.now states.now n steps inputs faults.now patterns.now (length unfolded.old) (length words.old) (length table.old) (length work.old) }
    ensures { FillDone circuit.now states.now steps faults.now patterns.now table.new work.new }
{
    let lines = steps * n;
    unfold_lines(circuit, states, n, steps, unfolded);
    fill_groups_in_steps(unfolded, lines, n, inputs, faults, patterns, table, words);
    leave_last(unfolded, lines, n, inputs, faults, patterns, work);
}

// No caller lends memory for the unfolded circuit and the words of its lines: both are kept on the stack.
fn fill(
    circuit: &[u8],
    states: &[u8],
    n: usize,
    steps: usize,
    inputs: usize,
    faults: &[u8],
    patterns: &[u8],
    table: &mut [u8],
    work: &mut [u8],
)
    requires { FillReady circuit.now states.now n steps inputs faults.now patterns.now (length table.old) (length work.old) }
    ensures { FillDone circuit.now states.now steps faults.now patterns.now table.new work.new }
{
    let mut unfolded = [0u8; 16384];
    let mut words = [0u64; 8192];
    let size = 8 * (steps * n);
    let room = 4 * (steps * n);
    fill_in(
        circuit,
        states,
        n,
        steps,
        inputs,
        faults,
        patterns,
        &mut unfolded[..size],
        &mut words[..room],
        table,
        work,
    );
}

// Fills the table, or gives the first refusal and writes nothing.
pub fn unfold_dictionary(
    circuit: &[u8],
    states: &[u8],
    steps: usize,
    faults: &[u8],
    patterns: &[u8],
    table: &mut [u8],
    work: &mut [u8],
) -> Result<(), Refusal>
    ensures { StepsDictionary circuit.now states.now steps faults.now patterns.now table.old work.old result table.new work.new }
{
    let checked = check_all_steps(
        circuit,
        states,
        steps,
        faults,
        patterns,
        table.len(),
        work.len(),
    );
    let sizes = checked?;
    fill(
        circuit,
        states,
        sizes.lines,
        steps,
        sizes.inputs,
        faults,
        patterns,
        table,
        work,
    );
    Ok(())
}
