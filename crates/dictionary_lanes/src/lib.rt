// The second engine of the dictionary maker: 64 patterns at once, in machine words.
#![tactic(auto)]

ghost use Rattle.dictionary_lanes.specs.Promise.{DictionaryLanes};

use answers::Refusal;
use dictionary::check_all;
use groups::fill_groups;

// Fills the table as `dictionary` does, or gives the first refusal and writes nothing; a line has four words of work memory.
pub fn dictionary_lanes(
    circuit: &[u8],
    faults: &[u8],
    patterns: &[u8],
    table: &mut [u8],
    work: &mut [u64],
) -> Result<(), Refusal>
    ensures { DictionaryLanes circuit.now faults.now patterns.now table.old work.old result table.new work.new }
{
    let checked = check_all(circuit, faults, patterns, table.len(), 4, work.len());
    let counts = checked?;
    fill_groups(
        circuit,
        counts.lines,
        counts.inputs,
        faults,
        patterns,
        table,
        work,
    );
    Ok(())
}
