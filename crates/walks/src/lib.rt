// One walk through the nodes for all faults of a list. A node is the same pattern whichever fault it is looked at for: its good values are
// simulated once, and every fault that still looks at it looks at them. The start is at level 3, the sides of a node one level higher.
#![tactic(auto)]

ghost use Rattle.std.specs.Prelude.{◌≡◌, length};
ghost use Rattle.standings.specs.Owed.{outcome_by};
ghost use Rattle.meetings.specs.Owed.{ListReady};
ghost use Rattle.rounds.specs.Owed.{WalkReady};
ghost use Rattle.walks.specs.Owed.{ListDone, WalkDone, AllReach, BecameOutcomes};

use meetings::SearchList;
use rounds::round;

// The nodes from this one on. Each call has one X fewer, so with n inputs calls are at most n + 1 deep. The node is set and restored in place.
fn walk(
    list: &SearchList<'_>,
    node: &mut [u8],
    level: u8,
    reaches: &mut [u8],
    counts: &mut [u64],
    tests: &mut [u8],
    work: &mut [u8],
)
    requires { WalkReady list.now.circuit.now list.now.faults.now list.now.lines node.old level (length list.now.budgets.now) (length reaches.old) (length counts.old) (length tests.old) (length work.old) }
    ensures { WalkDone list.now.circuit.now list.now.faults.now list.now.budgets.now list.now.lines node.old level
        (reaches.old, counts.old, tests.old) node.new (reaches.new, counts.new, tests.new) }
{
    let at = round(*list, node, level, reaches, counts, tests, work);
    if node.len() <= at {
        return;
    }
    node[at] = 0;
    walk(list, node, level + 1, reaches, counts, tests, work);
    node[at] = 1;
    walk(list, node, level + 1, reaches, counts, tests, work);
    node[at] = 2;
}

// Gives every fault the same reach, and no nodes yet.
pub fn reach_all(reaches: &mut [u8], counts: &mut [u64], reach: u8)
    requires { length counts.old ≡ length reaches.old }
    ensures { AllReach reaches.new counts.new reach (length reaches.old) }
{
    reaches.fill(reach);
    counts.fill(0);
}

// What a reach says in the end: a search that could go on, but has no node left, is redundant.
fn outcome_by(reach: u8) -> u8
    ensures { result ≡ outcome_by reach }
{
    if 3 <= reach { 1 } else { reach }
}

// Reaches become outcomes.
fn end_all(reaches: &mut [u8])
    ensures { BecameOutcomes reaches.old reaches.new (length reaches.old) }
{
    for reach in reaches.iter_mut() {
        *reach = outcome_by(*reach);
    }
}

// The search from all X on for every fault, each with its budget. The work memory serves all and is left as it happens to be.
pub fn walk_all(
    list: SearchList,
    inputs: usize,
    outcomes: &mut [u8],
    counts: &mut [u64],
    tests: &mut [u8],
    work: &mut [u8],
)
    requires { ListReady list.circuit.now list.faults.now list.lines inputs (length list.budgets.now) (length outcomes.old) (length counts.old) (length tests.old) (length work.old) }
    ensures { ListDone list.entry.circuit.now list.entry.faults.now list.entry.budgets.now list.entry.lines inputs tests.old outcomes.new counts.new tests.new }
{
    reach_all(outcomes, counts, 255);
    let mut node = [2u8; 64];
    walk(&list, &mut node[..inputs], 3, outcomes, counts, tests, work);
    end_all(outcomes);
}
