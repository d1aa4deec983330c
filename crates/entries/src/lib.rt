// The names that C knows, in the crate of which the archive is made: each entry takes a slice as a pointer and a length, and calls the function of
// the same promise in `circuit_entries`, `table_entries` or `clocked_entries`.
#![tactic(auto)]

ghost use Rattle.answers.specs.Area.{Entered};
ghost use Rattle.circuit_entries.specs.Entries.{check_numbers, SearchEntered, SearchHeadsEntered, SearchAllEntered, ClausesEntered, BenchEntered, BenchNamesEntered, ControlEntered};
ghost use Rattle.clocked_entries.specs.Entries.{UnfoldEntered, UnfoldDictionaryEntered};
ghost use Rattle.table_entries.specs.Entries.{audit_numbers, DictionaryEntered, DictionaryLanesEntered, CompactEntered, SuspectsOpenEntered, SuspectsReportEntered, SuspectsMarksEntered};

use circuit_entries::{
    enter_bench, enter_bench_names, enter_check, enter_clauses, enter_control, enter_search,
    enter_search_all, enter_search_heads,
};
use clocked_entries::{enter_unfold, enter_unfold_dictionary};
use table_entries::{
    enter_audit, enter_compact, enter_dictionary, enter_dictionary_lanes, enter_suspects_marks,
    enter_suspects_open, enter_suspects_report,
};

#[unsafe(no_mangle)]
pub extern "C" fn ullimaqsu_check(circuit: &[u8], answer: &mut [u8]) -> u32
    ensures { Entered answer.old (check_numbers circuit.now) result answer.new }
{
    enter_check(circuit, answer)
}

#[unsafe(no_mangle)]
pub extern "C" fn ullimaqsu_dictionary(
    circuit: &[u8],
    faults: &[u8],
    patterns: &[u8],
    table: &mut [u8],
    work: &mut [u8],
    answer: &mut [u8],
) -> u32
    ensures { DictionaryEntered circuit.now faults.now patterns.now
        table.old work.old answer.old result table.new work.new answer.new }
{
    enter_dictionary(circuit, faults, patterns, table, work, answer)
}

#[unsafe(no_mangle)]
pub extern "C" fn ullimaqsu_dictionary_lanes(
    circuit: &[u8],
    faults: &[u8],
    patterns: &[u8],
    table: &mut [u8],
    work: &mut [u64],
    answer: &mut [u8],
) -> u32
    ensures { DictionaryLanesEntered circuit.now faults.now patterns.now
        table.old work.old answer.old result table.new work.new answer.new }
{
    enter_dictionary_lanes(circuit, faults, patterns, table, work, answer)
}

#[unsafe(no_mangle)]
pub extern "C" fn ullimaqsu_compact(
    fault_count: u64,
    pattern_count: u64,
    table: &[u8],
    marks: &mut [u8],
    answer: &mut [u8],
) -> u32
    ensures { CompactEntered fault_count pattern_count table.now marks.old answer.old
        result marks.new answer.new }
{
    enter_compact(fault_count, pattern_count, table, marks, answer)
}

#[unsafe(no_mangle)]
pub extern "C" fn ullimaqsu_audit(
    fault_count: u64,
    pattern_count: u64,
    table: &[u8],
    marks: &[u8],
    answer: &mut [u8],
) -> u32
    ensures { Entered answer.old (audit_numbers fault_count pattern_count table.now marks.now)
        result answer.new }
{
    enter_audit(fault_count, pattern_count, table, marks, answer)
}

#[unsafe(no_mangle)]
pub extern "C" fn ullimaqsu_suspects_open(
    fault_count: u64,
    pattern_count: u64,
    table: &[u8],
    state: &mut [u8],
    answer: &mut [u8],
) -> u32
    ensures { SuspectsOpenEntered fault_count pattern_count table.now state.old answer.old
        result state.new answer.new }
{
    enter_suspects_open(fault_count, pattern_count, table, state, answer)
}

#[unsafe(no_mangle)]
pub extern "C" fn ullimaqsu_suspects_report(
    fault_count: u64,
    pattern_count: u64,
    table: &[u8],
    pattern: u64,
    failed: u64,
    state: &mut [u8],
    answer: &mut [u8],
) -> u32
    ensures { SuspectsReportEntered fault_count pattern_count table.now pattern failed state.old answer.old
        result state.new answer.new }
{
    enter_suspects_report(
        fault_count,
        pattern_count,
        table,
        pattern,
        failed,
        state,
        answer,
    )
}

#[unsafe(no_mangle)]
pub extern "C" fn ullimaqsu_suspects_marks(state: &[u8], marks: &mut [u8], answer: &mut [u8]) -> u32
    ensures { SuspectsMarksEntered state.now marks.old answer.old
        result marks.new answer.new }
{
    enter_suspects_marks(state, marks, answer)
}

#[unsafe(no_mangle)]
pub extern "C" fn ullimaqsu_search(
    circuit: &[u8],
    fault: &[u8],
    budget: u64,
    test: &mut [u8],
    work: &mut [u8],
    answer: &mut [u8],
) -> u32
    ensures { SearchEntered circuit.now fault.now budget
        test.old work.old answer.old result test.new work.new answer.new }
{
    enter_search(circuit, fault, budget, test, work, answer)
}

#[unsafe(no_mangle)]
pub extern "C" fn ullimaqsu_search_heads(
    circuit: &[u8],
    fault: &[u8],
    budget: u64,
    test: &mut [u8],
    work: &mut [u8],
    answer: &mut [u8],
) -> u32
    ensures { SearchHeadsEntered circuit.now fault.now budget
        test.old work.old answer.old result test.new work.new answer.new }
{
    enter_search_heads(circuit, fault, budget, test, work, answer)
}

#[unsafe(no_mangle)]
pub extern "C" fn ullimaqsu_search_all(
    circuit: &[u8],
    faults: &[u8],
    budgets: &[u64],
    outcomes: &mut [u8],
    counts: &mut [u64],
    tests: &mut [u8],
    work: &mut [u8],
    answer: &mut [u8],
) -> u32
    ensures { SearchAllEntered circuit.now faults.now budgets.now
        outcomes.old counts.old tests.old work.old answer.old
        result outcomes.new counts.new tests.new work.new answer.new }
{
    enter_search_all(
        circuit, faults, budgets, outcomes, counts, tests, work, answer,
    )
}

#[unsafe(no_mangle)]
pub extern "C" fn ullimaqsu_clauses(
    circuit: &[u8],
    fault: &[u8],
    words: &mut [i32],
    answer: &mut [u8],
) -> u32
    ensures { ClausesEntered circuit.now fault.now words.old answer.old
        result words.new answer.new }
{
    enter_clauses(circuit, fault, words, answer)
}

#[unsafe(no_mangle)]
pub extern "C" fn ullimaqsu_bench(text: &[u8], circuit: &mut [u8], answer: &mut [u8]) -> u32
    ensures { BenchEntered text.now circuit.old answer.old
        result circuit.new answer.new }
{
    enter_bench(text, circuit, answer)
}

#[unsafe(no_mangle)]
pub extern "C" fn ullimaqsu_bench_names(text: &[u8], places: &mut [u32], answer: &mut [u8]) -> u32
    ensures { BenchNamesEntered text.now places.old answer.old
        result places.new answer.new }
{
    enter_bench_names(text, places, answer)
}

#[unsafe(no_mangle)]
pub extern "C" fn ullimaqsu_control(
    circuit: &[u8],
    ones: &mut [f64],
    zeros: &mut [f64],
    answer: &mut [u8],
) -> u32
    ensures { ControlEntered circuit.now ones.old zeros.old answer.old
        result ones.new zeros.new answer.new }
{
    enter_control(circuit, ones, zeros, answer)
}

#[unsafe(no_mangle)]
pub extern "C" fn ullimaqsu_unfold(
    circuit: &[u8],
    states: &[u8],
    steps: u64,
    unfolded: &mut [u8],
    answer: &mut [u8],
) -> u32
    ensures { UnfoldEntered circuit.now states.now steps unfolded.old answer.old
        result unfolded.new answer.new }
{
    enter_unfold(circuit, states, steps, unfolded, answer)
}

#[unsafe(no_mangle)]
pub extern "C" fn ullimaqsu_unfold_dictionary(
    circuit: &[u8],
    states: &[u8],
    steps: u64,
    faults: &[u8],
    patterns: &[u8],
    table: &mut [u8],
    work: &mut [u8],
    answer: &mut [u8],
) -> u32
    ensures { UnfoldDictionaryEntered circuit.now states.now steps faults.now patterns.now
        table.old work.old answer.old result table.new work.new answer.new }
{
    enter_unfold_dictionary(
        circuit, states, steps, faults, patterns, table, work, answer,
    )
}
