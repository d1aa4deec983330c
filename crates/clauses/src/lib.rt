// Part 5, the clause writer: words that can be satisfied exactly by the complete vectors that detect a fault.
#![tactic(auto)]

ghost use Rattle.std.specs.Prelude.{◌≡◌, [], ◌∷◌, ◌++◌, ◌+◌, ◌≤◌, ℤ, length};
ghost use Rattle.ground.specs.Lists.{gather};
ghost use Rattle.cnf.specs.Cnf.{words_of};
ghost use Rattle.ground.specs.Put.{Put, laid_on};
ghost use Rattle.cnf.specs.Owed.{single, Takes};
ghost use Rattle.line_clauses.specs.Clauses.{stuck_literal, good_clauses, faulty_clauses, difference_clauses, differences, clauses_of};
ghost use Rattle.clauses.specs.Promise.{Writes};
ghost use Rattle.circuit.specs.Record.{inputs_of};
ghost use Rattle.circuit.specs.Formed.{Accepts};
ghost use Rattle.clauses.specs.Owed.{WholeReady, ClauseLinesReady, PutAllReady, FitDone, RestDone};

use answers::{Reason, Refusal};
use circuit::check;
use cnf::{Size, minus, plus, put_clause};
use line_clauses::{line_size, put_difference, put_faulty, put_good};
use lists::{Fault, check_faults, read_fault};

// How many words, clauses and variables a list has that was written.
#[derive(Clone, Copy, Debug, PartialEq, Eq)]
pub struct Written {
    pub words: usize,
    pub clauses: usize,
    pub variables: usize,
}

// ---- how much the list takes

// The whole list.
fn whole_size(circuit: &[u8], fault: Fault, n: usize, outputs: usize) -> Size
    requires { WholeReady circuit.now n outputs }
    ensures { Takes (clauses_of circuit.now fault n) result }
{
    let mut words = 0;
    let mut clauses = 0;
    for k in 0..n {
        let line = line_size(circuit, fault, n, k);
        words += line.words;
        clauses += line.clauses;
    }
    Size {
        words: words + 17 * outputs + 3,
        clauses: clauses + 4 * outputs + 2,
    }
}

// ---- writing

// The good lines.
fn put_goods(circuit: &[u8], n: usize, words: &mut [i32], at: usize) -> usize
    requires { ClauseLinesReady circuit.now n (good_clauses circuit.now) words.old at }
    ensures { Put words.old words.new at (words_of (gather (good_clauses circuit.now) n)) result }
{
    let mut next = at;
    for k in 0..n {
        next = put_good(circuit, n, k, words, next);
    }
    next
}

// The faulty lines.
fn put_faulties(circuit: &[u8], fault: Fault, n: usize, words: &mut [i32], at: usize) -> usize
    requires { ClauseLinesReady circuit.now n (faulty_clauses circuit.now fault n) words.old at }
    ensures { Put words.old words.new at (words_of (gather (faulty_clauses circuit.now fault n) n)) result }
{
    let mut next = at;
    for k in 0..n {
        next = put_faulty(circuit, fault, n, k, words, next);
    }
    next
}

// The differences.
fn put_differences(circuit: &[u8], n: usize, words: &mut [i32], at: usize) -> usize
    requires { ClauseLinesReady circuit.now n (difference_clauses circuit.now n) words.old at }
    ensures { Put words.old words.new at (words_of (gather (difference_clauses circuit.now n) n)) result }
{
    let mut next = at;
    let mut j = 0;
    for k in 0..n {
        next = put_difference(circuit, n, k, j, words, next);
        j += usize::from(circuit[8 * k + 1] == 1);
    }
    next
}

// The stuck value whose clause has the variable as it is; that of the other value has it negated.
const PLAIN: u8 = 1;

// The clause that fixes the stuck value.
fn put_stuck(fault: Fault, n: usize, words: &mut [i32], at: usize) -> usize
    requires { (n ≤ 2048) × (at + 2 ≤ length words.old) }
    ensures { Put words.old words.new at (single (stuck_literal fault n)) result }
{
    if fault.value == PLAIN {
        return put_clause(words, at, &[plus(2 * n + 1)]);
    }
    put_clause(words, at, &[minus(2 * n + 1)])
}

// The clause of all differences.
fn put_last(n: usize, outputs: usize, words: &mut [i32], at: usize) -> usize
    requires { (n ≤ 2048) × (outputs ≤ 2048) × (at + outputs + 1 ≤ length words.old) }
    ensures { Put words.old words.new at (differences n outputs ++ (ℤ.pos 0 ∷ [])) result }
{
    for j in 0..outputs {
        words[at + j] = plus(2 * n + 2 + j);
    }
    words[at + outputs] = 0;
    at + outputs + 1
}

// The whole list.
fn put_all(circuit: &[u8], fault: Fault, n: usize, outputs: usize, words: &mut [i32])
    requires { PutAllReady circuit.now fault n outputs words.old }
    ensures { words.new ≡ laid_on words.old (words_of (clauses_of circuit.now fault n)) }
{
    let a = put_goods(circuit, n, words, 0);
    let b = put_stuck(fault, n, words, a);
    let c = put_faulties(circuit, fault, n, words, b);
    let d = put_differences(circuit, n, words, c);
    put_last(n, outputs, words, d);
}

// ---- the part

// On an accepted circuit and a fault of it: the list, if it fits.
fn fitted(
    circuit: &[u8],
    fault: Fault,
    n: usize,
    outputs: usize,
    words: &mut [i32],
) -> Result<Written, Refusal>
    requires { WholeReady circuit.now n outputs }
    ensures { FitDone circuit.now fault n words.old words.new result }
{
    let size = whole_size(circuit, fault, n, outputs);
    let need = size.words;
    if words.len() < need {
        return Err(Refusal(Reason::NoRoom, need));
    }
    put_all(circuit, fault, n, outputs, words);
    Ok(Written {
        words: need,
        clauses: size.clauses,
        variables: 2 * n + 1 + outputs,
    })
}

// On an accepted circuit: the fault's refusals, then the list.
fn accepted(
    circuit: &[u8],
    fault: &[u8],
    n: usize,
    outputs: usize,
    words: &mut [i32],
) -> Result<Written, Refusal>
    requires { Accepts circuit.now n (inputs_of circuit.now) outputs }
    ensures { RestDone circuit.now fault.now n words.old words.new result }
{
    check_faults(circuit, fault, 1)?;
    let f = read_fault(fault, 0);
    fitted(circuit, f, n, outputs, words)
}

// Part 5: the words written, with the numbers of words, clauses and variables, or the first refusal.
pub fn clauses(circuit: &[u8], fault: &[u8], words: &mut [i32]) -> Result<Written, Refusal>
    ensures { Writes circuit.now fault.now words.old words.new result }
{
    let counts = check(circuit)?;
    accepted(circuit, fault, counts.lines, counts.outputs, words)
}
