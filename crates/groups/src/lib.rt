// The table of the dictionary by groups of 64 patterns, a lane each.
#![tactic(auto)]

ghost use Rattle.std.specs.Prelude.{◌<◌, ◌≤◌, length};
ghost use Rattle.lists.specs.Patterns.{pattern_count};
ghost use Rattle.simulate.specs.Simulate.{stuck_at, stuck_in_steps};
ghost use Rattle.rows.specs.Owed.{TableReady, FaultsInSteps};
ghost use Rattle.groups.specs.Owed.{GroupDone, Next, GroupCount, PutGroupDone, GroupsDone};

use columns::put_column;
use lane_entries::fault_entries;
use lane_lines::good_words;
use lists::read_fault;

// Fills the table of one group: the good lines once, the faulty ones for each fault, which is in each step of so many lines and whose
// entries are a column.
fn fill_group(
    circuit: &[u8],
    n: usize,
    step: usize,
    inputs: usize,
    faults: &[u8],
    patterns: &[u8],
    table: &mut [u8],
    work: &mut [u64],
)
    requires { TableReady 64 4 circuit.now n inputs faults.now patterns.now (length table.old) (length work.old) × FaultsInSteps step n faults.now }
    ensures { GroupDone (stuck_in_steps step) circuit.now n inputs faults.now patterns.now table.new work.new }
{
    good_words(circuit, inputs, patterns, work, n);
    let width = faults.len() / 8;
    let count = patterns.len() / inputs;
    for j in 0..width {
        let fault = read_fault(faults, j);
        let entries = fault_entries(circuit, fault, step, work, n);
        put_column(table, width, count, j, entries);
    }
}

// The rows of so many patterns from one on: their part of the table, lent on.
fn put_group(
    circuit: &[u8],
    n: usize,
    step: usize,
    inputs: usize,
    faults: &[u8],
    patterns: &[u8],
    from: usize,
    rows: usize,
    table: &mut [u8],
    work: &mut [u64],
)
    requires { TableReady 256 4 circuit.now n inputs faults.now patterns.now (length table.old) (length work.old) × FaultsInSteps step n faults.now × Next from rows (pattern_count inputs patterns.now) }
    ensures { PutGroupDone (stuck_in_steps step) circuit.now n inputs faults.now patterns.now from rows table.old table.new work.new }
{
    let width = faults.len() / 8;
    let first = from * inputs;
    let next = first + rows * inputs;
    let at = from * width;
    let end = at + rows * width;
    let group = &patterns[first..next];
    fill_group(
        circuit,
        n,
        step,
        inputs,
        faults,
        group,
        &mut table[at..end],
        work,
    );
}

// How many patterns the group has that begins here: 64, or as many as are left.
fn group_rows(from: usize, count: usize) -> usize
    requires { from < count }
    ensures { Next from result count }
{
    (count - from).min(64)
}

// How many groups so many patterns make; the last may be a partial one.
fn group_count(count: usize) -> usize
    requires { count ≤ 256 }
    ensures { GroupCount count result }
{
    count.div_ceil(64)
}

// Fills the table, group by group, where each fault is in each step of so many lines.
pub fn fill_groups_in_steps(
    circuit: &[u8],
    n: usize,
    step: usize,
    inputs: usize,
    faults: &[u8],
    patterns: &[u8],
    table: &mut [u8],
    work: &mut [u64],
)
    requires { TableReady 256 4 circuit.now n inputs faults.now patterns.now (length table.old) (length work.old) × FaultsInSteps step n faults.now }
    ensures { GroupsDone (stuck_in_steps step) circuit.now n inputs faults.now patterns.now table.new work.new }
{
    let count = patterns.len() / inputs;
    for g in 0..group_count(count) {
        let from = 64 * g;
        let rows = group_rows(from, count);
        put_group(
            circuit, n, step, inputs, faults, patterns, from, rows, table, work,
        );
    }
}

// Fills the table, group by group: all lines are one step.
pub fn fill_groups(
    circuit: &[u8],
    n: usize,
    inputs: usize,
    faults: &[u8],
    patterns: &[u8],
    table: &mut [u8],
    work: &mut [u64],
)
    requires { TableReady 256 4 circuit.now n inputs faults.now patterns.now (length table.old) (length work.old) }
    ensures { GroupsDone stuck_at circuit.now n inputs faults.now patterns.now table.new work.new }
{
    fill_groups_in_steps(circuit, n, n, inputs, faults, patterns, table, work);
}
