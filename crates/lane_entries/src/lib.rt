// What good and faulty lines say at the outputs, in every lane at once, from the work memory, which holds the good words of all lines, then
// the faulty ones; and the entries of a fault and a group of patterns.
#![tactic(auto)]

ghost use Rattle.std.specs.Prelude.{◌<◌, ◌≤◌, length};
ghost use Rattle.simulate.specs.Simulate.{stuck_in_steps};
ghost use Rattle.lane_lines.specs.Owed.{FaultyWordsReady};
ghost use Rattle.lane_entries.specs.Owed.{OutputsRoom, CompareDone, NextLineDone, EntriesFromDone, FaultEntriesDone};

use columns::EntryLanes;
use lane_lines::{faulty_words, lanes_at};
use lanes::Lanes;
use lists::Fault;

// What the outputs so far say. Bit i of `fails` is set where one of them differs in lane i, bit i of `misses` where one of them is not as
// expected: its good value is known, and the faulty one is not that value.
#[derive(Drop)]
struct Said {
    fails: u64,
    misses: u64,
}

// One more output: a good 1 is missed where the faulty value is no 1, a good 0 where it is no 0. Where the good value is X, nothing is
// expected.
fn compare(so: Said, good: Lanes, faulty: Lanes) -> Said
    ensures { CompareDone so good faulty result }
{
    let differ = (good.ones & faulty.zeros) | (good.zeros & faulty.ones);
    let ones = good.ones ^ (good.ones & faulty.ones);
    let zeros = good.zeros ^ (good.zeros & faulty.zeros);
    Said {
        fails: so.fails | differ,
        misses: so.misses | (ones | zeros),
    }
}

// One more line; a line that is no output says nothing, and its words are not read.
fn next_line(circuit: &[u8], work: &[u64], n: usize, k: usize, so: Said) -> Said
    requires { OutputsRoom circuit.now n (length work.now) × (k < n) }
    ensures { NextLineDone circuit.now n work.now k so result }
{
    if circuit[8 * k + 1] != 1 {
        return so;
    }
    compare(so, lanes_at(work, k), lanes_at(work, n + k))
}

// What all outputs say, where those below the line `start` have their good values: a lane is unknown where some output is not as expected
// and none differs.
fn entries_from(circuit: &[u8], work: &[u64], n: usize, start: usize) -> EntryLanes
    requires { OutputsRoom circuit.now n (length work.now) × (start ≤ n) }
    ensures { EntriesFromDone circuit.now n work.now start result }
{
    let mut so = Said {
        fails: 0,
        misses: 0,
    };
    for k in start..n {
        so = next_line(circuit, work, n, k, so);
    }
    EntryLanes {
        fails: so.fails,
        unknowns: so.misses ^ (so.misses & so.fails),
    }
}

// The entries of a group of patterns and a fault that is in each step of so many lines, where the first half of the work memory has the good
// lines; the second gets the faulty ones. Below the fault's line in the first step no output differs, so these are not looked at.
pub fn fault_entries(
    circuit: &[u8],
    fault: Fault,
    step: usize,
    work: &mut [u64],
    n: usize,
) -> EntryLanes
    requires { FaultyWordsReady circuit.now fault step n (length work.old) }
    ensures { FaultEntriesDone (stuck_in_steps step fault) circuit.now n work.old work.new result }
{
    faulty_words(circuit, fault, step, work, n);
    entries_from(circuit, work, n, fault.line)
}
