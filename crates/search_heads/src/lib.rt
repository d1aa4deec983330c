// The search that decides head lines only, where these serve the fault.
#![tactic(auto)]

ghost use Rattle.std.specs.Prelude.{◌≡◌, ◌*◌, ◌≤◌, length};
ghost use Rattle.circuit.specs.Formed.{Known};
ghost use Rattle.search_heads.specs.Promise.{HeadSearches};
ghost use Rattle.search_heads.specs.Owed.{served_by, EitherReady, EitherDone, RoomReady, HeadsReady, HeadSearchDone};

use answers::Refusal;
use circuit::check;
use cut_search::run_heads;
use head_marks::mark_lines;
use lists::{Fault, read_fault};
use nodes::Verdict;
use search::{check_rest, run_all_x};

// The mark of a bound line.
const BOUND: u8 = 2;

// The mark of a head line.
const HEAD: u8 = 1;

// A fault at a line with this mark and at this site is searched over head lines.
#[tactic(auto, unfolding(crate::specs::Owed::served_by))]
fn served_by(mark: u8, site: u8) -> bool
    ensures { result ≡ served_by mark site }
{
    match mark {
        BOUND => true,
        HEAD => site == 0,
        _ => false,
    }
}

// The search over head lines where it serves the fault, else the search over inputs.
fn run_either(
    circuit: &[u8],
    marks: &[u8],
    lines: &mut [u8],
    want: &mut [u8],
    fault: Fault,
    inputs: usize,
    budget: u64,
    test: &mut [u8],
    work: &mut [u8],
) -> Verdict
    requires { EitherReady circuit.now marks.now (length lines.old) fault (length want.old) inputs (length test.old) (length work.old) }
    ensures { EitherDone circuit.now fault budget test.old work.old result test.new work.new }
{
    let line = fault.line;
    if served_by(marks[line], fault.site) {
        return run_heads(circuit, marks, lines, fault, want, budget, test, work);
    }
    let n = want.len();
    run_all_x(circuit, fault, n, inputs, budget, test, work)
}

// Marks the lines, and searches. `reads` and `marks` are all 0 before; `reads` then serves as work memory for the trees.
fn mark_and_run(
    circuit: &[u8],
    reads: &mut [u8],
    marks: &mut [u8],
    lines: &mut [u8],
    fault: Fault,
    inputs: usize,
    budget: u64,
    test: &mut [u8],
    work: &mut [u8],
) -> Verdict
    requires { RoomReady circuit.now reads.old marks.old (length lines.old) fault inputs (length test.old) (length work.old) }
    ensures { EitherDone circuit.now fault budget test.old work.old result test.new work.new }
{
    mark_lines(circuit, reads, marks);
    run_either(
        circuit, marks, lines, reads, fault, inputs, budget, test, work,
    )
}

// The search of a circuit of at most so many lines, in memory for as many.
fn run_in<const LINES: usize, const BYTES: usize>(
    circuit: &[u8],
    fault: Fault,
    n: usize,
    inputs: usize,
    budget: u64,
    test: &mut [u8],
    work: &mut [u8],
) -> Verdict
    requires { (n ≤ LINES) × (8 * LINES ≤ BYTES) × (BYTES ≤ 16384) × HeadsReady circuit.now fault n inputs (length test.old) (length work.old) }
    ensures { EitherDone circuit.now fault budget test.old work.old result test.new work.new }
{
    let mut reads = [0u8; LINES];
    let mut marks = [0u8; LINES];
    let mut lines = [0u8; BYTES];
    mark_and_run(
        circuit,
        &mut reads[..n],
        &mut marks[..n],
        &mut lines[..8 * n],
        fault,
        inputs,
        budget,
        test,
        work,
    )
}

// The search of an accepted circuit for a fault. A small one is spared the clearing of the memory that the largest needs.
fn run_sized(
    circuit: &[u8],
    fault: Fault,
    n: usize,
    inputs: usize,
    budget: u64,
    test: &mut [u8],
    work: &mut [u8],
) -> Verdict
    requires { (n ≤ 2048) × HeadsReady circuit.now fault n inputs (length test.old) (length work.old) }
    ensures { EitherDone circuit.now fault budget test.old work.old result test.new work.new }
{
    if n <= 128 {
        return run_in::<128, 1024>(circuit, fault, n, inputs, budget, test, work);
    }
    run_in::<2048, 16384>(circuit, fault, n, inputs, budget, test, work)
}

// The search of an accepted circuit.
fn accepted(
    circuit: &[u8],
    fault: &[u8],
    n: usize,
    inputs: usize,
    budget: u64,
    test: &mut [u8],
    work: &mut [u8],
) -> Result<Verdict, Refusal>
    requires { Known circuit.now n inputs }
    ensures { HeadSearchDone circuit.now fault.now inputs n budget test.old work.old result test.new work.new }
{
    check_rest(circuit, fault, inputs, n, test.len(), work.len())?;
    let at = read_fault(fault, 0);
    let found = run_sized(circuit, at, n, inputs, budget, test, work);
    Ok(found)
}

// A test, redundant or given up, each with its number of nodes, over head lines where these serve the fault; or the first refusal, and nothing is
// written. Parameters, refusals and answers are those of the search.
pub fn search_heads(
    circuit: &[u8],
    fault: &[u8],
    budget: u64,
    test: &mut [u8],
    work: &mut [u8],
) -> Result<Verdict, Refusal>
    ensures { HeadSearches circuit.now fault.now budget test.old work.old result test.new work.new }
{
    let counts = check(circuit)?;
    accepted(
        circuit,
        fault,
        counts.lines,
        counts.inputs,
        budget,
        test,
        work,
    )
}
