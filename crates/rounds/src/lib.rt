// One round at a node: all faults of a list come to it that look at its level, together or each alone.
#![tactic(auto)]

ghost use Rattle.std.specs.Prelude.{◌≡◌, ◌+◌, ◌*◌, ◌≤◌, ltb, length};
ghost use Rattle.ground.specs.Below.{count_below};
ghost use Rattle.rounds.specs.Owed.{looks_at, WalkReady, RoundDone};

use meetings::{SearchList, meet_all};
use nodes::first_x;
use simulate::good_values;

// So many faults look at a node that is passed over.
const NOBODY: usize = 0;

// How many faults look at a level.
fn looking(reaches: &[u8], level: u8) -> usize
    ensures { result ≡ count_below (length reaches.now) (looks_at reaches.now level) }
{
    reaches.iter().filter(|&&reach| level <= reach).count()
}

// Whether so few of the faults look at a node that each is sooner through with it alone. Together they save the good values of the node for each but
// the first, some three steps a line, and every fault of the list is passed at every node.
fn few(some: usize, n: usize, faults: usize) -> bool
    requires { (some ≤ 256) × (n ≤ 2048) × (faults ≤ 256) }
    ensures { result ≡ ltb (3 * n * some) (faults + 3 * n) }
{
    3 * n * some < faults + 3 * n
}

// All faults come to a node, if one looks at its level: the place of the X whose sides come next, or the number of inputs where none do. Few
// faults go through all nodes from this one on, each alone.
pub fn round(
    list: SearchList,
    node: &[u8],
    level: u8,
    reaches: &mut [u8],
    counts: &mut [u64],
    tests: &mut [u8],
    work: &mut [u8],
) -> usize
    requires { WalkReady list.circuit.now list.faults.now list.lines node.now level (length list.budgets.now) (length reaches.old) (length counts.old) (length tests.old) (length work.old) }
    ensures { RoundDone list.entry.circuit.now list.entry.faults.now list.entry.budgets.now list.entry.lines node.now level
        (reaches.old, counts.old, tests.old) result (reaches.new, counts.new, tests.new) }
{
    let some = looking(reaches, level);
    if some == NOBODY {
        return node.len();
    }
    if few(some, list.lines, reaches.len()) {
        meet_all(true, list, node, level, reaches, counts, tests, work);
        return node.len();
    }
    good_values(list.circuit, node, work, list.lines);
    meet_all(false, list, node, level, reaches, counts, tests, work);
    first_x(node)
}
