// What C calls for circuits, searches, clauses, bench texts and chances, but for the names that C knows: these are in `entries`, of which the archive is made.
// The entries with lent memory look at the answer area first: with one of another size nothing is written at all.
#![tactic(auto)]

ghost use Rattle.answers.specs.Area.{Entered};
ghost use Rattle.circuit_entries.specs.Entries.{check_numbers, SearchEntered, SearchHeadsEntered, SearchAllEntered, ClausesEntered, BenchEntered, BenchNamesEntered, ControlEntered};

use bench::bench;
use bench_names::bench_names;
use circuit::check;
use clauses::clauses;
use control::control;
use replies::{AREA, OTHER_SIZE, of_answer, report};
use search::search;
use search_all::search_all;
use search_heads::search_heads;

pub fn enter_check(circuit: &[u8], answer: &mut [u8]) -> u32
    ensures { Entered answer.old (check_numbers circuit.now) result answer.new }
{
    let v = check(circuit);
    report(of_answer(v), answer)
}

pub fn enter_search(
    circuit: &[u8],
    fault: &[u8],
    budget: u64,
    test: &mut [u8],
    work: &mut [u8],
    answer: &mut [u8],
) -> u32
    ensures { SearchEntered circuit.now fault.now budget
        test.old work.old answer.old result test.new work.new answer.new }
{
    if answer.len() != AREA {
        return OTHER_SIZE;
    }
    let v = search(circuit, fault, budget, test, work);
    report(of_answer(v), answer)
}

pub fn enter_search_heads(
    circuit: &[u8],
    fault: &[u8],
    budget: u64,
    test: &mut [u8],
    work: &mut [u8],
    answer: &mut [u8],
) -> u32
    ensures { SearchHeadsEntered circuit.now fault.now budget
        test.old work.old answer.old result test.new work.new answer.new }
{
    if answer.len() != AREA {
        return OTHER_SIZE;
    }
    let v = search_heads(circuit, fault, budget, test, work);
    report(of_answer(v), answer)
}

pub fn enter_search_all(
    circuit: &[u8],
    faults: &[u8],
    budgets: &[u64],
    outcomes: &mut [u8],
    counts: &mut [u64],
    tests: &mut [u8],
    work: &mut [u8],
    answer: &mut [u8],
) -> u32
    ensures { SearchAllEntered circuit.now faults.now budgets.now
        outcomes.old counts.old tests.old work.old answer.old
        result outcomes.new counts.new tests.new work.new answer.new }
{
    if answer.len() != AREA {
        return OTHER_SIZE;
    }
    let v = search_all(circuit, faults, budgets, outcomes, counts, tests, work);
    report(of_answer(v), answer)
}

pub fn enter_clauses(circuit: &[u8], fault: &[u8], words: &mut [i32], answer: &mut [u8]) -> u32
    ensures { ClausesEntered circuit.now fault.now words.old answer.old
        result words.new answer.new }
{
    if answer.len() != AREA {
        return OTHER_SIZE;
    }
    let v = clauses(circuit, fault, words);
    report(of_answer(v), answer)
}

pub fn enter_control(circuit: &[u8], ones: &mut [f64], zeros: &mut [f64], answer: &mut [u8]) -> u32
    ensures { ControlEntered circuit.now ones.old zeros.old answer.old
        result ones.new zeros.new answer.new }
{
    if answer.len() != AREA {
        return OTHER_SIZE;
    }
    let v = control(circuit, ones, zeros);
    report(of_answer(v), answer)
}

pub fn enter_bench(text: &[u8], circuit: &mut [u8], answer: &mut [u8]) -> u32
    ensures { BenchEntered text.now circuit.old answer.old
        result circuit.new answer.new }
{
    if answer.len() != AREA {
        return OTHER_SIZE;
    }
    let v = bench(text, circuit);
    report(of_answer(v), answer)
}

pub fn enter_bench_names(text: &[u8], places: &mut [u32], answer: &mut [u8]) -> u32
    ensures { BenchNamesEntered text.now places.old answer.old
        result places.new answer.new }
{
    if answer.len() != AREA {
        return OTHER_SIZE;
    }
    let v = bench_names(text, places);
    report(of_answer(v), answer)
}
