// How often each line of a circuit is read, counted by pins and as far as 2.
#![tactic(auto)]

ghost use Rattle.std.specs.Prelude.{◌≡◌, ◌≤◌, ◌<◌, length, replicate};
ghost use Rattle.reads.specs.Reads.{reads_of};
ghost use Rattle.reads.specs.Owed.{Sourced, OneMore, ReadsCounted, CountsMore, pin_adds, line_adds};

use circuit::source;
use gates::pins;

// The count of a line that no pin has read so far.
const UNREAD: u8 = 0;

// One reading more.
fn one_more(read: u8) -> u8
    ensures { OneMore read result }
{
    if read == UNREAD { 1 } else { 2 }
}

// The source of pin s of line j is read once more.
fn count_pin(circuit: &[u8], j: usize, s: usize, reads: &mut [u8])
    requires { Sourced circuit.now (length reads.old) × (j < length reads.old) × (1 ≤ s) × (s ≤ 3) }
    ensures { CountsMore (length reads.old) (pin_adds circuit.now j s) reads.old reads.new }
{
    let k = source(circuit, j, s);
    reads[k] = one_more(reads[k]);
}

// Those of all its pins are.
fn count_pins(circuit: &[u8], j: usize, reads: &mut [u8])
    requires { Sourced circuit.now (length reads.old) × (j < length reads.old) }
    ensures { CountsMore (length reads.old) (line_adds circuit.now j) reads.old reads.new }
{
    for s in 0..pins(circuit[8 * j]) {
        count_pin(circuit, j, s + 1, reads);
    }
}

// How often each line is read, into memory that is all 0.
pub fn count_reads(circuit: &[u8], reads: &mut [u8])
    requires { Sourced circuit.now (length reads.old) × (reads.old ≡ replicate (length reads.old) 0) }
    ensures { ReadsCounted (length reads.old) (reads_of circuit.now (length reads.old)) reads.new }
{
    for j in 0..reads.len() {
        count_pins(circuit, j, reads);
    }
}
