// Part 2, the dictionary maker.
#![tactic(auto)]

ghost use Rattle.std.specs.Prelude.{◌≡◌, ◌<◌, ◌≤◌};
ghost use Rattle.answers.specs.Rules.{refusal};
ghost use Rattle.dictionary.specs.Promise.{dictionary_rest_rules, Dictionary};
ghost use Rattle.dictionary.specs.Owed.{AllChecked};

use answers::{Refusal, check_lent};
use circuit::{Counts, check};
use lists::check_lists;
use rows::fill_table;

// Refusals 6 to 10, where the work memory is to have this size.
pub fn check_rest(
    circuit: &[u8],
    inputs: usize,
    faults: &[u8],
    patterns: &[u8],
    table: usize,
    size: usize,
    work: usize,
) -> Result<(), Refusal>
    requires { 0 < inputs }
    ensures { result ≡ refusal (dictionary_rest_rules size circuit.now inputs faults.now patterns.now table work) }
{
    check_lists(circuit, inputs, faults, patterns)?;
    let f = faults.len() / 8;
    let p = patterns.len() / inputs;
    check_lent(f * p, table, size, work)
}

// Refusals 1, 2 and 4 to 10, where each line has so many places in the work memory: every engine starts with them. The circuit's numbers come back.
pub fn check_all(
    circuit: &[u8],
    faults: &[u8],
    patterns: &[u8],
    table: usize,
    places: usize,
    work: usize,
) -> Result<Counts, Refusal>
    requires { places ≤ 4 }
    ensures { AllChecked places circuit.now faults.now patterns.now table work result }
{
    let counts = check(circuit)?;
    check_rest(
        circuit,
        counts.inputs,
        faults,
        patterns,
        table,
        places * counts.lines,
        work,
    )?;
    Ok(counts)
}

// Part 2: fills the table, or gives the first refusal and writes nothing.
pub fn dictionary(
    circuit: &[u8],
    faults: &[u8],
    patterns: &[u8],
    table: &mut [u8],
    work: &mut [u8],
) -> Result<(), Refusal>
    ensures { Dictionary circuit.now faults.now patterns.now table.old work.old result table.new work.new }
{
    let counts = check_all(circuit, faults, patterns, table.len(), 2, work.len())?;
    fill_table(
        circuit,
        counts.lines,
        counts.inputs,
        faults,
        patterns,
        table,
        work,
    );
    Ok(())
}
