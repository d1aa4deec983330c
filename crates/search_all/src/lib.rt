// The test search for all faults of a list in one call.
#![tactic(auto)]

ghost use Rattle.std.specs.Prelude.{◌≡◌, ◌≤◌};
ghost use Rattle.answers.specs.Rules.{or_else, said, refusal};
ghost use Rattle.answers.specs.Lent.{exact};
ghost use Rattle.circuit.specs.Formed.{Known};
ghost use Rattle.search_all.specs.Promise.{list_lent_rules, search_all_rest_rules, SearchesAll};
ghost use Rattle.search_all.specs.Owed.{SearchAllDone};

use answers::{Reason, Refusal};
use circuit::check;
use list_search::search_list;
use lists::check_faults;
use meetings::SearchList;

// Refusal 10 for one lent buffer, and otherwise what the buffers after it say.
fn exact_or(size: usize, lent: usize, rest: Result<(), Refusal>) -> Result<(), Refusal>
    ensures { result ≡ or_else (said (exact size lent)) rest }
{
    if lent != size {
        return Err(Refusal(Reason::BufferSize, 0));
    }
    rest
}

// Refusal 10 for all that is lent, from the last buffer to the first.
fn check_sizes(
    faults: usize,
    inputs: usize,
    n: usize,
    budgets: usize,
    outcomes: usize,
    counts: usize,
    tests: usize,
    work: usize,
) -> Result<(), Refusal>
    requires { (faults ≤ 256) × (inputs ≤ 64) × (n ≤ 2048) }
    ensures { result ≡ refusal (list_lent_rules faults inputs n budgets outcomes counts tests work) }
{
    let fifth = exact_or(2 * n, work, Ok(()));
    let fourth = exact_or(faults * inputs, tests, fifth);
    let third = exact_or(faults, counts, fourth);
    let second = exact_or(faults, outcomes, third);
    exact_or(faults, budgets, second)
}

// Refusals 6, 7 and 10.
fn check_rest(
    circuit: &[u8],
    faults: &[u8],
    n: usize,
    inputs: usize,
    budgets: usize,
    outcomes: usize,
    counts: usize,
    tests: usize,
    work: usize,
) -> Result<(), Refusal>
    requires { Known circuit.now n inputs }
    ensures { result ≡ refusal (search_all_rest_rules circuit.now faults.now inputs n budgets outcomes counts tests work) }
{
    check_faults(circuit, faults, 256)?;
    check_sizes(
        faults.len() / 8,
        inputs,
        n,
        budgets,
        outcomes,
        counts,
        tests,
        work,
    )
}

// The search of an accepted circuit for a list.
fn accepted(
    circuit: &[u8],
    faults: &[u8],
    budgets: &[u64],
    n: usize,
    inputs: usize,
    outcomes: &mut [u8],
    counts: &mut [u64],
    tests: &mut [u8],
    work: &mut [u8],
) -> Result<(), Refusal>
    requires { Known circuit.now n inputs }
    ensures { SearchAllDone circuit.now faults.now budgets.now inputs n
        (outcomes.old, counts.old, tests.old, work.old)
        result (outcomes.new, counts.new, tests.new, work.new) }
{
    check_rest(
        circuit,
        faults,
        n,
        inputs,
        budgets.len(),
        outcomes.len(),
        counts.len(),
        tests.len(),
        work.len(),
    )?;
    let list = SearchList {
        circuit,
        lines: n,
        faults,
        budgets,
    };
    search_list(list, inputs, outcomes, counts, tests, work);
    Ok(())
}

// The search for all faults of a list: outcome, count and test of each, as single calls one after the other give them; or the first refusal, and
// nothing is written.
pub fn search_all(
    circuit: &[u8],
    faults: &[u8],
    budgets: &[u64],
    outcomes: &mut [u8],
    counts: &mut [u64],
    tests: &mut [u8],
    work: &mut [u8],
) -> Result<(), Refusal>
    ensures { SearchesAll circuit.now faults.now budgets.now
        outcomes.old counts.old tests.old work.old
        result outcomes.new counts.new tests.new work.new }
{
    let size = check(circuit)?;
    accepted(
        circuit,
        faults,
        budgets,
        size.lines,
        size.inputs,
        outcomes,
        counts,
        tests,
        work,
    )
}
