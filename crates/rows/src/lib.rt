// The table of the dictionary, row by row: each pattern's row is filled on its own.
#![tactic(auto)]

ghost use Rattle.std.specs.Prelude.{◌<◌, length};
ghost use Rattle.lists.specs.Patterns.{pattern_count};
ghost use Rattle.simulate.specs.Simulate.{stuck_at};
ghost use Rattle.rows.specs.Owed.{RowReady, RowDone, TableReady, PutRowDone, TableDone};

use entry::fault_entry;
use lists::read_fault;
use simulate::good_values;

// Fills the row of a pattern: the good circuit once, the faulty one for each fault.
fn fill_row(
    circuit: &[u8],
    n: usize,
    pattern: &[u8],
    faults: &[u8],
    row: &mut [u8],
    work: &mut [u8],
)
    requires { RowReady circuit.now n pattern.now faults.now (length row.old) (length work.old) }
    ensures { RowDone stuck_at circuit.now n pattern.now faults.now row.new work.new }
{
    good_values(circuit, pattern, work, n);
    for (j, entry) in row.iter_mut().enumerate() {
        let fault = read_fault(faults, j);
        *entry = fault_entry(circuit, fault, work, n);
    }
}

// The row of pattern i: the part of the table that starts at pattern times faults, lent on.
fn put_row(
    circuit: &[u8],
    n: usize,
    inputs: usize,
    faults: &[u8],
    patterns: &[u8],
    i: usize,
    table: &mut [u8],
    work: &mut [u8],
)
    requires { TableReady 256 2 circuit.now n inputs faults.now patterns.now (length table.old) (length work.old) × (i < pattern_count inputs patterns.now) }
    ensures { PutRowDone stuck_at circuit.now n inputs faults.now patterns.now i table.old table.new work.new }
{
    let from = i * inputs;
    let next = from + inputs;
    let width = faults.len() / 8;
    let at = i * width;
    let to = at + width;
    let pattern = &patterns[from..next];
    fill_row(circuit, n, pattern, faults, &mut table[at..to], work);
}

// Fills the table, one row per pattern.
pub fn fill_table(
    circuit: &[u8],
    n: usize,
    inputs: usize,
    faults: &[u8],
    patterns: &[u8],
    table: &mut [u8],
    work: &mut [u8],
)
    requires { TableReady 256 2 circuit.now n inputs faults.now patterns.now (length table.old) (length work.old) }
    ensures { TableDone stuck_at circuit.now n inputs faults.now patterns.now table.new work.new }
{
    for i in 0..patterns.len() / inputs {
        put_row(circuit, n, inputs, faults, patterns, i, table, work);
    }
}
