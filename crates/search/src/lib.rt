// Part 4, the test search.
#![tactic(auto)]

ghost use Rattle.std.specs.Prelude.{◌≡◌, ◌≤◌, length};
ghost use Rattle.answers.specs.Rules.{refusal};
ghost use Rattle.circuit.specs.Formed.{Known};
ghost use Rattle.nodes.specs.Node.{start};
ghost use Rattle.nodes.specs.Budget.{test_by};
ghost use Rattle.sides.specs.Look.{look_of, look_work};
ghost use Rattle.search.specs.Promise.{search_rest_rules, Searches};
ghost use Rattle.search.specs.Owed.{RunReady, RunDone, SearchDone};

use answers::{Refusal, check_lent};
use circuit::check;
use lists::{Fault, check_faults, read_fault};
use nodes::Verdict;
use sides::side;

// The test buffer gets the node, if it is a test.
fn put_test(found: Verdict, node: &[u8], test: &mut [u8])
    requires { length node.now ≡ length test.old }
    ensures { test.new ≡ test_by found test.old node.now }
{
    match found {
        Verdict::Test(_) => {
            test.copy_from_slice(node);
        }
        Verdict::Redundant(_) => {}
        Verdict::GivenUp(_) => {}
    }
}

// The search from a node on; a test goes into the test buffer.
fn run(
    circuit: &[u8],
    fault: Fault,
    n: usize,
    node: &mut [u8],
    budget: u64,
    test: &mut [u8],
    work: &mut [u8],
) -> Verdict
    requires { RunReady circuit.now fault n node.old (length test.old) (length work.old) }
    ensures { RunDone (look_of fault circuit.now n) (look_work fault circuit.now n) node.old budget
        test.old work.old result test.new work.new }
{
    let found = side(circuit, fault, n, node, work, budget);
    put_test(found, node, test);
    found
}

// The same from a node on that stays as it is.
pub fn run_from(
    circuit: &[u8],
    fault: Fault,
    n: usize,
    node: &[u8],
    budget: u64,
    test: &mut [u8],
    work: &mut [u8],
) -> Verdict
    requires { (length node.now ≤ 64) × RunReady circuit.now fault n node.now (length test.old) (length work.old) }
    ensures { RunDone (look_of fault circuit.now n) (look_work fault circuit.now n) node.now budget
        test.old work.old result test.new work.new }
{
    let mut own = [2u8; 64];
    own[..node.len()].copy_from_slice(node);
    run(
        circuit,
        fault,
        n,
        &mut own[..node.len()],
        budget,
        test,
        work,
    )
}

// The search from all X on, for any fault.
pub fn run_all_x(
    circuit: &[u8],
    fault: Fault,
    n: usize,
    inputs: usize,
    budget: u64,
    test: &mut [u8],
    work: &mut [u8],
) -> Verdict
    requires { (inputs ≤ 64) × RunReady circuit.now fault n (start inputs) (length test.old) (length work.old) }
    ensures { RunDone (look_of fault circuit.now n) (look_work fault circuit.now n) (start inputs) budget
        test.old work.old result test.new work.new }
{
    let mut node = [2u8; 64];
    run(circuit, fault, n, &mut node[..inputs], budget, test, work)
}

// Refusals 6, 7 and 10.
pub fn check_rest(
    circuit: &[u8],
    fault: &[u8],
    inputs: usize,
    n: usize,
    test: usize,
    work: usize,
) -> Result<(), Refusal>
    requires { n ≤ 2048 }
    ensures { result ≡ refusal (search_rest_rules circuit.now fault.now inputs n test work) }
{
    check_faults(circuit, fault, 1)?;
    check_lent(inputs, test, 2 * n, work)
}

// The search of an accepted circuit.
fn accepted(
    circuit: &[u8],
    fault: &[u8],
    n: usize,
    inputs: usize,
    budget: u64,
    test: &mut [u8],
    work: &mut [u8],
) -> Result<Verdict, Refusal>
    requires { Known circuit.now n inputs }
    ensures { SearchDone circuit.now fault.now inputs n budget test.old work.old result test.new work.new }
{
    check_rest(circuit, fault, inputs, n, test.len(), work.len())?;
    let at = read_fault(fault, 0);
    let found = run_all_x(circuit, at, n, inputs, budget, test, work);
    Ok(found)
}

// Part 4: a test, redundant or given up, each with its number of nodes; or the first refusal, and nothing is written.
pub fn search(
    circuit: &[u8],
    fault: &[u8],
    budget: u64,
    test: &mut [u8],
    work: &mut [u8],
) -> Result<Verdict, Refusal>
    ensures { Searches circuit.now fault.now budget test.old work.old result test.new work.new }
{
    let counts = check(circuit)?;
    accepted(
        circuit,
        fault,
        counts.lines,
        counts.inputs,
        budget,
        test,
        work,
    )
}
