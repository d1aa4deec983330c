// What the dictionary program prints, as bytes in lent memory: a line for each pattern, or a refusal.
#![tactic(auto)]

ghost use Rattle.std.specs.Prelude.{◌≡◌, ◌≤◌, length};
ghost use Rattle.ground.specs.Put.{Put};
ghost use Rattle.listing.specs.Promise.{table_text, Listed};
ghost use Rattle.circuit.specs.Formed.{Known};
ghost use Rattle.listing.specs.Owed.{PutTableReady, MakeReady, MakeDone, EntriesDone, PutMadeReady, PutMadeDone};

use answers::Refusal;
use circuit::check;
use compact::compact;
use dictionary_lanes::dictionary_lanes;
use letters::{put_lines, put_refused};

// The lines of all patterns, where the marks are to be made.
fn put_marked(
    out: &mut [u8],
    table: &[u8],
    marks: &mut [u8],
    faults: usize,
    patterns: usize,
) -> usize
    requires { PutTableReady table.now (length out.old) faults patterns × (length marks.old ≡ patterns) }
    ensures { Put out.old out.new 0 (table_text faults patterns table.now) result }
{
    // nothing is refused: the table and the marks have their sizes
    let _ = compact(faults as u64, patterns as u64, table, marks);
    put_lines(out, table, marks, faults, patterns)
}

// The lines of a full table.
fn put_table(out: &mut [u8], table: &[u8], faults: usize, patterns: usize) -> usize
    requires { PutTableReady table.now (length out.old) faults patterns }
    ensures { Put out.old out.new 0 (table_text faults patterns table.now) result }
{
    let mut marks = [0u8; 256];
    put_marked(out, table, &mut marks[..patterns], faults, patterns)
}

// The entries of a table of so many faults and patterns; none where either is too many, which the dictionary maker refuses.
fn entries(faults: usize, patterns: usize) -> usize
    ensures { EntriesDone faults patterns result }
{
    if 256 < faults {
        return 0;
    }
    if 256 < patterns {
        return 0;
    }
    faults * patterns
}

// The dictionary of a circuit of n lines.
fn make(
    circuit: &[u8],
    n: usize,
    faults: &[u8],
    patterns: &[u8],
    table: &mut [u8],
) -> Result<(), Refusal>
    requires { MakeReady circuit.now n faults.now patterns.now (length table.old) }
    ensures { MakeDone circuit.now faults.now patterns.now table.old result table.new }
{
    let mut work = [0u64; 8192];
    let four = 4 * n;
    dictionary_lanes(circuit, faults, patterns, table, &mut work[..four])
}

// The text of a circuit of n lines, with a table of its size.
fn put_made(
    circuit: &[u8],
    n: usize,
    faults: &[u8],
    patterns: &[u8],
    f: usize,
    p: usize,
    table: &mut [u8],
    out: &mut [u8],
) -> usize
    requires make_ready { MakeReady circuit.now n faults.now patterns.now (length table.old) }
    requires put_made_ready { PutMadeReady circuit.now faults.now patterns.now f p × (71680 ≤ length out.old) }
    ensures { PutMadeDone circuit.now faults.now patterns.now table.old out.old result table.new out.new }
{
    let v = make(circuit, n, faults, patterns, table);
    match v {
        Err(why) => put_refused(out, why.0.number(), why.1),
        Ok(()) => put_table(out, table, f, p),
    }
}

// The text of a circuit that is accepted.
fn put_accepted(
    circuit: &[u8],
    n: usize,
    inputs: usize,
    faults: &[u8],
    patterns: &[u8],
    table: &mut [u8],
    out: &mut [u8],
) -> usize
    requires { Known circuit.now n inputs × (65536 ≤ length table.old) × (71680 ≤ length out.old) }
    ensures { Listed circuit.now faults.now patterns.now table.old out.old result table.new out.new }
{
    let f = faults.len() / 8;
    let p = patterns.len() / inputs;
    let size = entries(f, p);
    put_made(circuit, n, faults, patterns, f, p, &mut table[..size], out)
}

// The whole text; its length comes back. The table gets the dictionary, unless something is refused.
pub fn listing(
    circuit: &[u8],
    faults: &[u8],
    patterns: &[u8],
    table: &mut [u8; 65536],
    out: &mut [u8; 71680],
) -> usize
    ensures { Listed circuit.now faults.now patterns.now table.old out.old result table.new out.new }
{
    let v = check(circuit);
    match v {
        Err(why) => put_refused(out, why.0.number(), why.1),
        Ok(counts) => put_accepted(
            circuit,
            counts.lines,
            counts.inputs,
            faults,
            patterns,
            table,
            out,
        ),
    }
}
