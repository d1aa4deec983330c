// What good and faulty values say at the outputs, from the work memory, which holds the good ones of all lines, then the faulty ones; and
// the entry of a pattern and a fault.
#![tactic(auto)]

ghost use Rattle.std.specs.Prelude.{◌≡◌, ◌+◌, ◌<◌, length, get_or, take, drop};
ghost use Rattle.ground.specs.Choose.{choose};
ghost use Rattle.circuit.specs.Record.{out_at};
ghost use Rattle.simulate.specs.Simulate.{stuck_at};
ghost use Rattle.simulate.specs.Owed.{FaultyValuesReady};
ghost use Rattle.tables.specs.Entries.{pass, unknown};
ghost use Rattle.entry.specs.Entry.{entry_by};
ghost use Rattle.entry.specs.Owed.{output_test, status_by, joined_of, EntryRoom, FaultEntryDone};

use lists::Fault;
use simulate::faulty_values;
use tables::{FAIL, PASS, UNKNOWN};

// What an output says whose good value is X, so that a tester can expect nothing there: where such outputs are masked it passes, and else
// it is unknown.
fn nothing_expected(masks: bool) -> u8
    ensures { result ≡ choose masks pass unknown }
{
    if masks { PASS } else { UNKNOWN }
}

// What an output says by its good and faulty value. Equal values are told before a faulty X: compiled in this order, the loop over the lines leaves what
// it has as it is for a line that passes (docs/DECISIONS.md, 176).
fn compare(masks: bool, a: u8, b: u8) -> u8
    ensures { result ≡ status_by (output_test masks) 1 a b }
{
    if 2 <= a {
        return nothing_expected(masks);
    }
    if a == b {
        return PASS;
    }
    if 2 <= b { UNKNOWN } else { FAIL }
}

// What line k says; a line that is no output says nothing, and its values are not read.
fn status(masks: bool, circuit: &[u8], work: &[u8], n: usize, k: usize) -> u8
    requires { EntryRoom circuit.now n (length work.now) × (k < n) }
    ensures { result ≡ status_by (output_test masks) (out_at circuit.now k) (get_or work.now k 0) (get_or work.now (n + k) 0) }
{
    if circuit[8 * k + 1] != 1 {
        return PASS;
    }
    compare(masks, work[k], work[n + k])
}

fn joined(r: u8, s: u8) -> u8
    ensures { result ≡ joined_of r s }
{
    if s == PASS { r } else { UNKNOWN }
}

// What the outputs say, where the work memory holds the good and the faulty values of n lines: with outputs masked where the good value
// is X, as a tester does, or with every output looked at.
pub fn entry_by(masks: bool, circuit: &[u8], work: &[u8], n: usize) -> u8
    requires { EntryRoom circuit.now n (length work.now) }
    ensures { result ≡ entry_by (output_test masks) circuit.now (take n work.now) (drop n work.now) n }
{
    let mut r = PASS;
    for k in 0..n {
        let s = status(masks, circuit, work, n, k);
        if s == FAIL {
            return FAIL;
        }
        r = joined(r, s);
    }
    r
}

// The entry of a fault, where the first half of the work memory has the good values; the second gets the faulty ones.
pub fn fault_entry(circuit: &[u8], fault: Fault, work: &mut [u8], n: usize) -> u8
    requires { FaultyValuesReady circuit.now fault n (length work.old) }
    ensures { FaultEntryDone (stuck_at fault) circuit.now n work.old work.new result }
{
    faulty_values(circuit, fault, work, n);
    entry_by(true, circuit, work, n)
}
