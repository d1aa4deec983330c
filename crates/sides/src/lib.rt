// The search from a node on: what a node says of a fault, and its sides.
#![tactic(auto)]

ghost use Rattle.std.specs.Prelude.{length};
ghost use Rattle.circuit.specs.Record.{inputs_before};
ghost use Rattle.simulate.specs.Owed.{FaultyValuesReady};
ghost use Rattle.nodes.specs.Node.{IsNode};
ghost use Rattle.nodes.specs.Owed.{SideDone};
ghost use Rattle.sides.specs.Look.{look_of, look_work};
ghost use Rattle.sides.specs.Owed.{SideReady, LookDone, VisitDone};

use entry::entry_by;
use lists::Fault;
use nodes::{Verdict, first_x};
use simulate::{faulty_values, good_values};

// Looks at a node whose good values stand in the work memory, which gets the faulty ones: 1 fail, 0 it is left, 2 neither. No output is
// masked: where the good value is X, a filling may still detect the fault.
pub fn look_at(circuit: &[u8], fault: Fault, work: &mut [u8], n: usize) -> u8
    requires { FaultyValuesReady circuit.now fault n (length work.old) }
    ensures { LookDone fault circuit.now n work.old result work.new }
{
    faulty_values(circuit, fault, work, n);
    entry_by(false, circuit, work, n)
}

// Looks at a node: the work memory gets its good and faulty values.
fn visit(circuit: &[u8], node: &[u8], fault: Fault, work: &mut [u8], n: usize) -> u8
    requires { SideReady circuit.now fault n (length work.old) × IsNode (inputs_before circuit.now n) node.now }
    ensures { VisitDone fault circuit.now n node.now result work.new }
{
    good_values(circuit, node, work, n);
    look_at(circuit, fault, work, n)
}

// The search from a node on, with at most `left` nodes. Each call has one X fewer, so with n inputs calls are at most n + 1 deep.
// The node is set and restored in place; a test is left in it.
pub fn side(
    circuit: &[u8],
    fault: Fault,
    n: usize,
    node: &mut [u8],
    work: &mut [u8],
    left: u64,
) -> Verdict
    requires { SideReady circuit.now fault n (length work.old) × IsNode (inputs_before circuit.now n) node.old }
    ensures { SideDone (look_of fault circuit.now n) (look_work fault circuit.now n) left node.old work.old result node.new work.new }
{
    if left == 0 {
        return Verdict::GivenUp(0);
    }
    let e = visit(circuit, node, fault, work, n);
    if e == 1 {
        return Verdict::Test(1);
    }
    if e != 2 {
        return Verdict::Redundant(1);
    }
    let at = first_x(node);
    node[at] = 0;
    let a = side(circuit, fault, n, node, work, left - 1);
    match a {
        Verdict::Redundant(m) => {
            node[at] = 1;
            let b = side(circuit, fault, n, node, work, left - 1 - m);
            match b {
                Verdict::Redundant(k) => {
                    node[at] = 2;
                    Verdict::Redundant(1 + m + k)
                }
                Verdict::Test(k) => Verdict::Test(1 + m + k),
                Verdict::GivenUp(_) => Verdict::GivenUp(left),
            }
        }
        Verdict::Test(m) => Verdict::Test(1 + m),
        Verdict::GivenUp(_) => Verdict::GivenUp(left),
    }
}
