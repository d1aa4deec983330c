// What C calls for clocked circuits, but for the names that C knows: these are in `entries`, of which the archive is made.
#![tactic(auto)]

ghost use Rattle.clocked_entries.specs.Entries.{UnfoldEntered, UnfoldDictionaryEntered};

use replies::{AREA, OTHER_SIZE, of_answer, report};
use unfold::unfold;
use unfold_dictionary::unfold_dictionary;

pub fn enter_unfold(
    circuit: &[u8],
    states: &[u8],
    steps: u64,
    unfolded: &mut [u8],
    answer: &mut [u8],
) -> u32
    ensures { UnfoldEntered circuit.now states.now steps unfolded.old answer.old
        result unfolded.new answer.new }
{
    if answer.len() != AREA {
        return OTHER_SIZE;
    }
    let v = unfold(circuit, states, steps as usize, unfolded);
    report(of_answer(v), answer)
}

pub fn enter_unfold_dictionary(
    circuit: &[u8],
    states: &[u8],
    steps: u64,
    faults: &[u8],
    patterns: &[u8],
    table: &mut [u8],
    work: &mut [u8],
    answer: &mut [u8],
) -> u32
    ensures { UnfoldDictionaryEntered circuit.now states.now steps faults.now patterns.now
        table.old work.old answer.old result table.new work.new answer.new }
{
    if answer.len() != AREA {
        return OTHER_SIZE;
    }
    let v = unfold_dictionary(
        circuit,
        states,
        steps as usize,
        faults,
        patterns,
        table,
        work,
    );
    report(of_answer(v), answer)
}
