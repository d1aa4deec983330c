// A list of faults at one node: every fault that still looks at the node looks at its good values, which stand in the work memory. Or each of them
// goes through the nodes from this one on alone, which is quicker where few are left.
//
// Each fault has a reach: 0 it has a test, 2 it is given up, and from 3 on its search goes on. Nodes have levels: a fault looks at a node
// whose level is within its reach.
#![tactic(auto)]

ghost use Rattle.std.specs.Prelude.{◌≡◌, true, false, ◌<◌, length};
ghost use Rattle.nodes.specs.Budget.{nodes_of};
ghost use Rattle.standings.specs.Owed.{reach_by};
ghost use Rattle.meetings.specs.Owed.{MeetReady, MeetDone, MeetAtDone, MeetAllReady, MeetAllDone};

use lists::{Fault, read_fault};
use nodes::Verdict;
use search::run_from;
use sides::look_at;

// Where a fault's search stands: its reach, and the nodes looked at.
#[derive(Drop)]
pub struct Meeting {
    reach: u8,
    count: u64,
}

// The search for one fault of a circuit of so many lines.
#[derive(Clone, Copy)]
struct Search<'a> {
    circuit: &'a [u8],
    lines: usize,
    fault: Fault,
    budget: u64,
}

// The search for each fault of a list, with a budget for each.
#[derive(Clone, Copy)]
pub struct SearchList<'a> {
    pub circuit: &'a [u8],
    pub lines: usize,
    pub faults: &'a [u8],
    pub budgets: &'a [u64],
}

// How far a fault reaches by the verdict on the nodes from one of this level on.
fn reach_by(level: u8, found: Verdict) -> u8
    ensures { result ≡ reach_by level found }
{
    match found {
        Verdict::Test(_) => 0,
        Verdict::Redundant(_) => level,
        Verdict::GivenUp(_) => 2,
    }
}

// The nodes of a verdict.
pub fn nodes_of(found: Verdict) -> u64
    ensures { result ≡ nodes_of found }
{
    match found {
        Verdict::Test(k) | Verdict::Redundant(k) | Verdict::GivenUp(k) => k,
    }
}

// A fault whose budget is not spent goes through the nodes from this one on alone.
fn go_alone(
    search: Search,
    node: &[u8],
    level: u8,
    count: u64,
    test: &mut [u8],
    work: &mut [u8],
) -> Meeting
    requires { MeetReady true search.circuit.now search.fault search.lines node.now level (length test.old) work.old × (count < search.budget) }
    ensures { MeetDone true search.entry.circuit.now search.entry.fault search.entry.lines node.now level count search.entry.budget test.old result.reach result.count test.new work.new }
{
    let found = run_from(
        search.circuit,
        search.fault,
        search.lines,
        node,
        search.budget - count,
        test,
        work,
    );
    Meeting {
        reach: reach_by(level, found),
        count: count + nodes_of(found),
    }
}

// A fault whose budget is not spent looks at a node: it goes on to the sides if the node says neither. A function of its own when compiled too:
// inside the walk, which has all else in it, its loop over the lines has no register left for their number.
#[inline(never)]
fn look_once(
    search: Search,
    node: &[u8],
    level: u8,
    count: u64,
    test: &mut [u8],
    work: &mut [u8],
) -> Meeting
    requires { MeetReady false search.circuit.now search.fault search.lines node.now level (length test.old) work.old × (count < search.budget) }
    ensures { MeetDone false search.entry.circuit.now search.entry.fault search.entry.lines node.now level count search.entry.budget test.old result.reach result.count test.new work.new }
{
    let says = look_at(search.circuit, search.fault, work, search.lines);
    if says == 1 {
        test.copy_from_slice(node);
        return Meeting {
            reach: 0,
            count: count + 1,
        };
    }
    if says == 2 {
        return Meeting {
            reach: 255,
            count: count + 1,
        };
    }
    Meeting {
        reach: level,
        count: count + 1,
    }
}

// A fault comes to a node that it looks at, unless its budget is spent.
fn meet(
    alone: bool,
    search: Search,
    node: &[u8],
    level: u8,
    count: u64,
    test: &mut [u8],
    work: &mut [u8],
) -> Meeting
    requires { MeetReady alone search.circuit.now search.fault search.lines node.now level (length test.old) work.old }
    ensures { MeetDone alone search.entry.circuit.now search.entry.fault search.entry.lines node.now level count search.entry.budget test.old result.reach result.count test.new work.new }
{
    if search.budget <= count {
        return Meeting { reach: 2, count };
    }
    if alone {
        return go_alone(search, node, level, count, test, work);
    }
    look_once(search, node, level, count, test, work)
}

// Fault i comes to a node.
fn meet_at(
    alone: bool,
    list: SearchList,
    node: &[u8],
    level: u8,
    i: usize,
    reaches: &mut [u8],
    counts: &mut [u64],
    tests: &mut [u8],
    work: &mut [u8],
)
    requires { MeetAllReady alone list.circuit.now list.faults.now list.lines node.now level (length list.budgets.now) (length reaches.old) (length counts.old) (length tests.old) work.old × (i < length reaches.old) }
    ensures { MeetAtDone alone list.entry.circuit.now list.entry.faults.now list.entry.budgets.now list.entry.lines node.now level i
        (reaches.old, counts.old, tests.old) (reaches.new, counts.new, tests.new) work.new }
{
    if reaches[i] < level {
        return;
    }
    let search = Search {
        circuit: list.circuit,
        lines: list.lines,
        fault: read_fault(list.faults, i),
        budget: list.budgets[i],
    };
    let at = i * node.len();
    let to = at + node.len();
    let met = meet(
        alone,
        search,
        node,
        level,
        counts[i],
        &mut tests[at..to],
        work,
    );
    reaches[i] = met.reach;
    counts[i] = met.count;
}

// Every fault comes to a node: alone, or together with the others, and then its good values stand in the work memory.
pub fn meet_all(
    alone: bool,
    list: SearchList,
    node: &[u8],
    level: u8,
    reaches: &mut [u8],
    counts: &mut [u64],
    tests: &mut [u8],
    work: &mut [u8],
)
    requires { MeetAllReady alone list.circuit.now list.faults.now list.lines node.now level (length list.budgets.now) (length reaches.old) (length counts.old) (length tests.old) work.old }
    ensures { MeetAllDone alone list.entry.circuit.now list.entry.faults.now list.entry.budgets.now list.entry.lines node.now level
        (reaches.old, counts.old, tests.old) (reaches.new, counts.new, tests.new) }
{
    for i in 0..reaches.len() {
        meet_at(alone, list, node, level, i, reaches, counts, tests, work);
    }
}
