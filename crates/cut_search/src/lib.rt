// The search of a circuit cut at its head lines, and a test with its trees set.
#![tactic(auto)]

ghost use Rattle.std.specs.Prelude.{◌≡◌, eqb, length, get_or};
ghost use Rattle.ground.specs.Below.{count_below};
ghost use Rattle.nodes.specs.Node.{start};
ghost use Rattle.nodes.specs.Budget.{test_by};
ghost use Rattle.heads.specs.Heads.{heads_of};
ghost use Rattle.trees.specs.Setting.{set_trees};
ghost use Rattle.setting.specs.Owed.{TreesReady};
ghost use Rattle.cut_search.specs.Owed.{SearchCutReady, RunCutReady, RunHeadsReady, HeadRunDone};

use cut_lines::cut_lines;
use lists::Fault;
use nodes::Verdict;
use setting::set_trees;
use sides::side;

// The test buffer gets the inputs of the trees set for the node, if it is a test.
fn put_trees(
    found: Verdict,
    circuit: &[u8],
    marks: &[u8],
    node: &[u8],
    want: &mut [u8],
    test: &mut [u8],
)
    requires { TreesReady circuit.now marks.now (length node.now) (length want.old) (length test.old) }
    ensures { test.new ≡ test_by found test.old (set_trees circuit.now (length want.old) node.now) }
{
    match found {
        Verdict::Test(_) => {
            set_trees(circuit, marks, node, want, test);
        }
        Verdict::Redundant(_) => {}
        Verdict::GivenUp(_) => {}
    }
}

// The search of the cut circuit, which is `lines`, from a node on; a test goes into the test buffer with its trees set.
fn search_cut(
    circuit: &[u8],
    marks: &[u8],
    lines: &[u8],
    fault: Fault,
    node: &mut [u8],
    want: &mut [u8],
    budget: u64,
    test: &mut [u8],
    work: &mut [u8],
) -> Verdict
    requires { SearchCutReady circuit.now marks.now lines.now fault node.old (length want.old) (length test.old) (length work.old) }
    ensures { HeadRunDone fault circuit.now (length want.old) node.old budget test.old work.old result test.new work.new }
{
    let n = want.len();
    let found = side(lines, fault, n, node, work, budget);
    put_trees(found, circuit, marks, node, want, test);
    found
}

// Cuts the circuit into `lines`, and searches.
fn run_cut(
    circuit: &[u8],
    marks: &[u8],
    lines: &mut [u8],
    fault: Fault,
    node: &mut [u8],
    want: &mut [u8],
    budget: u64,
    test: &mut [u8],
    work: &mut [u8],
) -> Verdict
    requires { RunCutReady circuit.now marks.now (length lines.old) fault node.old (length want.old) (length test.old) (length work.old) }
    ensures { HeadRunDone fault circuit.now (length want.old) node.old budget test.old work.old result test.new work.new }
{
    lines.copy_from_slice(circuit);
    cut_lines(circuit, marks, lines);
    search_cut(circuit, marks, lines, fault, node, want, budget, test, work)
}

// How many head lines there are.
fn count_heads(marks: &[u8]) -> usize
    ensures { result ≡ count_below (length marks.now) (λ k. eqb (get_or marks.now k 0) 1) }
{
    marks.iter().filter(|&&mark| mark == 1).count()
}

// The search over head lines from all X on. There are no more head lines than inputs, so 64 bytes are room enough for a node.
pub fn run_heads(
    circuit: &[u8],
    marks: &[u8],
    lines: &mut [u8],
    fault: Fault,
    want: &mut [u8],
    budget: u64,
    test: &mut [u8],
    work: &mut [u8],
) -> Verdict
    requires { RunHeadsReady circuit.now marks.now (length lines.old) fault (length want.old) (length test.old) (length work.old) }
    ensures { HeadRunDone fault circuit.now (length want.old) (start (heads_of circuit.now (length want.old))) budget
        test.old work.old result test.new work.new }
{
    let heads = count_heads(marks);
    let mut node = [2u8; 64];
    run_cut(
        circuit,
        marks,
        lines,
        fault,
        &mut node[..heads],
        want,
        budget,
        test,
        work,
    )
}
