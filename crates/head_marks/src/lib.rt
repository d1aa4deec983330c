// Marks the lines of a circuit: 2 a bound line, 1 a head line, 0 another free line.
#![tactic(auto)]

ghost use Rattle.std.specs.Prelude.{◌≡◌, ◌≤◌, ◌<◌, length};
ghost use Rattle.circuit.specs.Record.{pin_at};
ghost use Rattle.reads.specs.Owed.{Sourced};
ghost use Rattle.heads.specs.Heads.{some_pin};
ghost use Rattle.heads.specs.Marks.{Marked};
ghost use Rattle.head_marks.specs.Owed.{binds, ReadsMore, PinMarked, SourcesMarked, MarkLineReady, MarkLineDone, MarkReady};

use circuit::source;
use gates::pins;
use reads::count_reads;

// Pin s of line k makes it bound: what it reads branches or is bound itself.
fn binding(circuit: &[u8], reads: &[u8], marks: &[u8], k: usize, s: usize) -> bool
    requires { Sourced circuit.now (length marks.now) × (length reads.now ≡ length marks.now) × (k < length marks.now) × (1 ≤ s) × (s ≤ 3) }
    ensures { result ≡ binds reads.now marks.now (pin_at circuit.now k s) }
{
    let i = source(circuit, k, s);
    reads[i] == 2 || marks[i] == 2
}

// Line k is bound, where the lines below it are marked.
fn is_bound(circuit: &[u8], reads: &[u8], marks: &[u8], k: usize) -> bool
    requires { Sourced circuit.now (length marks.now) × (length reads.now ≡ length marks.now) × (k < length marks.now) }
    ensures { result ≡ some_pin circuit.now k (binds reads.now marks.now) }
{
    (0..pins(circuit[8 * k])).any(|s| binding(circuit, reads, marks, k, s + 1))
}

// The mark of a line that a bound line reads.
fn read_by_bound(mark: u8) -> u8
    ensures { ReadsMore mark result }
{
    if mark == 2 { 2 } else { 1 }
}

// Line k is bound, and reads the source of its pin s.
fn mark_source(circuit: &[u8], k: usize, s: usize, marks: &mut [u8])
    requires { Sourced circuit.now (length marks.old) × (k < length marks.old) × (1 ≤ s) × (s ≤ 3) }
    ensures { PinMarked circuit.now k s marks.old marks.new }
{
    let i = source(circuit, k, s);
    marks[i] = read_by_bound(marks[i]);
}

// And those of all its pins.
fn mark_sources(circuit: &[u8], k: usize, marks: &mut [u8])
    requires { Sourced circuit.now (length marks.old) × (k < length marks.old) }
    ensures { SourcesMarked circuit.now k marks.old marks.new }
{
    for s in 0..pins(circuit[8 * k]) {
        mark_source(circuit, k, s + 1, marks);
    }
}

// Marks line k, if it is bound, and what it reads.
fn mark_line(circuit: &[u8], reads: &[u8], k: usize, marks: &mut [u8])
    requires { MarkLineReady circuit.now reads.now k (length marks.old) }
    ensures { MarkLineDone circuit.now k marks.old marks.new }
{
    if is_bound(circuit, reads, marks, k) {
        marks[k] = 2;
        mark_sources(circuit, k, marks);
    }
}

// Marks all lines. Both buffers are all 0 before; `reads` then has how often each line is read.
pub fn mark_lines(circuit: &[u8], reads: &mut [u8], marks: &mut [u8])
    requires { MarkReady circuit.now reads.old marks.old }
    ensures { Marked circuit.now (length marks.old) marks.new }
{
    count_reads(circuit, reads);
    for k in 0..marks.len() {
        mark_line(circuit, reads, k, marks);
    }
}
