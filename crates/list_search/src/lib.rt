// The search for each fault of a good list, with a budget for each: the last that has one on its own, those below it in one walk.
#![tactic(auto)]

ghost use Rattle.std.specs.Prelude.{◌≡◌, ◌<◌, length};
ghost use Rattle.lists.specs.Faults.{fault_count};
ghost use Rattle.standings.specs.Outcome.{outcome_of};
ghost use Rattle.walks.specs.Owed.{AllReach};
ghost use Rattle.list_search.specs.Owed.{AfterLast, SearchesReady, OthersDone, OneDone, AllEnded};

use lists::read_fault;
use meetings::{SearchList, nodes_of};
use nodes::Verdict;
use search::run_all_x;
use walks::{reach_all, walk_all};

// The outcome of a verdict: 0 test, 1 redundant, 2 given up.
fn outcome_of(found: Verdict) -> u8
    ensures { result ≡ outcome_of found }
{
    match found {
        Verdict::Test(_) => 0,
        Verdict::Redundant(_) => 1,
        Verdict::GivenUp(_) => 2,
    }
}

// The place after the last budget that is not 0.
fn after_last(budgets: &[u64]) -> usize
    ensures { AfterLast budgets.now result }
{
    match budgets.iter().rposition(|&budget| budget != 0) {
        Some(last) => last + 1,
        None => 0,
    }
}

// Searches for the faults below `last` in one walk; the work memory is only used.
fn search_others(
    list: SearchList,
    inputs: usize,
    last: usize,
    outcomes: &mut [u8],
    counts: &mut [u64],
    tests: &mut [u8],
    work: &mut [u8],
)
    requires { SearchesReady list.circuit.now list.faults.now list.lines inputs (length list.budgets.now) (length outcomes.old) (length counts.old) (length tests.old) (length work.old) × (last < fault_count list.faults.now) }
    ensures { OthersDone list.entry.circuit.now list.entry.faults.now list.entry.budgets.now list.entry.lines inputs last
        (outcomes.old, counts.old, tests.old)
        (outcomes.new, counts.new, tests.new) }
{
    let to = last * inputs;
    walk_all(
        list,
        inputs,
        &mut outcomes[..last],
        &mut counts[..last],
        &mut tests[..to],
        work,
    );
}

// Searches for the fault `at` on its own, as a single call does.
fn search_one(
    list: SearchList,
    inputs: usize,
    at: usize,
    outcomes: &mut [u8],
    counts: &mut [u64],
    tests: &mut [u8],
    work: &mut [u8],
)
    requires { SearchesReady list.circuit.now list.faults.now list.lines inputs (length list.budgets.now) (length outcomes.old) (length counts.old) (length tests.old) (length work.old) × (at < fault_count list.faults.now) }
    ensures { OneDone list.entry.circuit.now list.entry.faults.now list.entry.budgets.now list.entry.lines inputs at
        (outcomes.old, counts.old, tests.old) work.old
        (outcomes.new, counts.new, tests.new) work.new }
{
    let fault = read_fault(list.faults, at);
    let from = at * inputs;
    let to = from + inputs;
    let found = run_all_x(
        list.circuit,
        fault,
        list.lines,
        inputs,
        list.budgets[at],
        &mut tests[from..to],
        work,
    );
    outcomes[at] = outcome_of(found);
    counts[at] = nodes_of(found);
}

// Searches for the faults below `stop`, after which every budget is 0: the last of them on its own, so that the work memory ends as single calls
// leave it.
fn search_below(
    list: SearchList,
    inputs: usize,
    stop: usize,
    outcomes: &mut [u8],
    counts: &mut [u64],
    tests: &mut [u8],
    work: &mut [u8],
)
    requires { SearchesReady list.circuit.now list.faults.now list.lines inputs (length list.budgets.now) (length outcomes.old) (length counts.old) (length tests.old) (length work.old)
        × AfterLast list.budgets.now stop × AllReach outcomes.old counts.old 2 (fault_count list.faults.now) }
    ensures { AllEnded list.entry.circuit.now list.entry.faults.now list.entry.budgets.now list.entry.lines inputs
        (outcomes.old, counts.old, tests.old) work.old
        (outcomes.new, counts.new, tests.new) work.new }
{
    if stop == 0 {
        return;
    }
    let last = stop - 1;
    search_others(list, inputs, last, outcomes, counts, tests, work);
    search_one(list, inputs, last, outcomes, counts, tests, work);
}

// Searches for each fault of the list. One that is not searched for is given up, with no node.
pub fn search_list(
    list: SearchList,
    inputs: usize,
    outcomes: &mut [u8],
    counts: &mut [u64],
    tests: &mut [u8],
    work: &mut [u8],
)
    requires { SearchesReady list.circuit.now list.faults.now list.lines inputs (length list.budgets.now) (length outcomes.old) (length counts.old) (length tests.old) (length work.old) }
    ensures { AllEnded list.entry.circuit.now list.entry.faults.now list.entry.budgets.now list.entry.lines inputs
        (outcomes.old, counts.old, tests.old) work.old
        (outcomes.new, counts.new, tests.new) work.new }
{
    // given up: as an outcome and as a reach it is 2
    reach_all(outcomes, counts, 2);
    let stop = after_last(list.budgets);
    search_below(list, inputs, stop, outcomes, counts, tests, work);
}
