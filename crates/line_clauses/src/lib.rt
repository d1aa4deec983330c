// The clauses of one line: how much they take, and the writer of them, for the good line, the faulty one and the difference.
#![tactic(auto)]

ghost use Rattle.std.specs.Prelude.{◌≡◌, ◌≤◌};
ghost use Rattle.gates.specs.Gate.{last_kind};
ghost use Rattle.cnf.specs.Cnf.{words_of};
ghost use Rattle.ground.specs.Put.{Put};
ghost use Rattle.lists.specs.Faults.{is_at};
ghost use Rattle.line_clauses.specs.Clauses.{faulty_site, good_clauses, faulty_clauses, difference_clauses};
ghost use Rattle.line_clauses.specs.Owed.{LineReady, GateReady, faulty_kind, LineSizeDone, LineClausesReady, DifferenceReady};

use circuit::source;
use cnf::{Size, put_gate, put_selector, size_of};
use gates::SELECTOR;
use lists::Fault;

// The fault is at site s of line k.
fn is_at(fault: Fault, k: usize, s: u8) -> bool
    ensures { result ≡ is_at fault k s }
{
    k == fault.line && s == fault.site
}

// The kind of the gate that writes the faulty line k.
fn faulty_kind(circuit: &[u8], fault: Fault, n: usize, k: usize) -> u8
    requires { LineReady circuit.now n k }
    ensures { (result ≡ faulty_kind circuit.now fault k) × (result ≤ last_kind) }
{
    if is_at(fault, k, 0) {
        return 1;
    }
    let kind = circuit[8 * k];
    if kind == 0 {
        return 1;
    }
    kind
}

// How much the clauses of line k take, good and faulty.
pub fn line_size(circuit: &[u8], fault: Fault, n: usize, k: usize) -> Size
    requires { LineReady circuit.now n k }
    ensures { LineSizeDone circuit.now fault n k result }
{
    let good = size_of(circuit[8 * k]);
    let faulty = size_of(faulty_kind(circuit, fault, n, k));
    Size {
        words: good.words + faulty.words,
        clauses: good.clauses + faulty.clauses,
    }
}

// The good line k.
pub fn put_good(circuit: &[u8], n: usize, k: usize, words: &mut [i32], at: usize) -> usize
    requires { LineClausesReady circuit.now n k (good_clauses circuit.now k) words.old at }
    ensures { Put words.old words.new at (words_of (good_clauses circuit.now k)) result }
{
    let kind = circuit[8 * k];
    if kind == 0 {
        return at;
    }
    let a = source(circuit, k, 1);
    let b = source(circuit, k, 2);
    if kind == SELECTOR {
        let s = source(circuit, k, 3);
        return put_selector(words, at, 2 * k + 1, 2 * a + 1, 2 * b + 1, 2 * s + 1);
    }
    put_gate(words, at, kind, 2 * k + 1, 2 * a + 1, 2 * b + 1)
}

// The variable that pin s of the faulty line k reads.
fn pin_variable(circuit: &[u8], fault: Fault, n: usize, k: usize, s: u8) -> usize
    requires { GateReady circuit.now n k × (1 ≤ s) × (s ≤ 3) }
    ensures { (result ≡ faulty_site circuit.now fault n k s) × (result ≤ 8192) }
{
    if is_at(fault, k, s) {
        return 2 * n + 1;
    }
    2 * source(circuit, k, usize::from(s)) + 2
}

// The faulty line k.
pub fn put_faulty(
    circuit: &[u8],
    fault: Fault,
    n: usize,
    k: usize,
    words: &mut [i32],
    at: usize,
) -> usize
    requires { LineClausesReady circuit.now n k (faulty_clauses circuit.now fault n k) words.old at }
    ensures { Put words.old words.new at (words_of (faulty_clauses circuit.now fault n k)) result }
{
    if is_at(fault, k, 0) {
        let stuck = 2 * n + 1;
        return put_gate(words, at, 1, 2 * k + 2, stuck, stuck);
    }
    let kind = circuit[8 * k];
    if kind == 0 {
        let good = 2 * k + 1;
        return put_gate(words, at, 1, 2 * k + 2, good, good);
    }
    let a = pin_variable(circuit, fault, n, k, 1);
    let b = pin_variable(circuit, fault, n, k, 2);
    if kind == SELECTOR {
        let s = pin_variable(circuit, fault, n, k, 3);
        return put_selector(words, at, 2 * k + 2, a, b, s);
    }
    put_gate(words, at, kind, 2 * k + 2, a, b)
}

// The difference at line k, if it is an output; j outputs stand below it.
pub fn put_difference(
    circuit: &[u8],
    n: usize,
    k: usize,
    j: usize,
    words: &mut [i32],
    at: usize,
) -> usize
    requires { DifferenceReady circuit.now n k j words.old at }
    ensures { Put words.old words.new at (words_of (difference_clauses circuit.now n k)) result }
{
    if circuit[8 * k + 1] != 1 {
        return at;
    }
    put_gate(words, at, 7, 2 * n + 2 + j, 2 * k + 1, 2 * k + 2)
}
