// How hard each line of a circuit is to set: its chance of 1 and its chance of 0.
#![tactic(auto)]

ghost use Rattle.std.specs.Prelude.{◌≡◌, ◌≤◌, length};
ghost use Rattle.circuit.specs.Formed.{Known};
ghost use Rattle.chances.specs.Owed.{Are, Seen};
ghost use Rattle.exponents.specs.Lines.{exponents, pin_exponents};
ghost use Rattle.control.specs.Promise.{Controls};
ghost use Rattle.control.specs.Owed.{gate_at, LineReady, GateReady, FillReady, RoomReady, Filled, ControlDone};

use answers::{Refusal, check_lent};
use chances::{Chances, certain, floor_chances, gate_chances, select};
use circuit::{check, source};
use gates::SELECTOR;
use halves::{share, times};
use reads::count_reads;

// What pin s of line k sees: half of the line's chances where that branches.
fn pin_chances(
    circuit: &[u8],
    reads: &[u8],
    ones: &[f64],
    zeros: &[f64],
    k: usize,
    s: usize,
) -> Chances
    requires { GateReady circuit.now reads.now ones.now zeros.now k × (1 ≤ s) × (s ≤ 3) }
    ensures { Seen result (pin_exponents circuit.now (length ones.now) k s) }
{
    let j = source(circuit, k, s);
    let taken = share(reads[j] == 2);
    Chances {
        one: times(ones[j], taken),
        zero: times(zeros[j], taken),
    }
}

// What the gate at line k makes of that. Only a selector looks at its third pin.
fn gate_at(circuit: &[u8], reads: &[u8], ones: &[f64], zeros: &[f64], k: usize) -> Chances
    requires { GateReady circuit.now reads.now ones.now zeros.now k }
    ensures { Are result (gate_at circuit.now (length ones.now) k) }
{
    let kind = circuit[8 * k];
    let first = pin_chances(circuit, reads, ones, zeros, k, 1);
    let second = pin_chances(circuit, reads, ones, zeros, k, 2);
    if kind == SELECTOR {
        let third = pin_chances(circuit, reads, ones, zeros, k, 3);
        return select(first, second, third);
    }
    gate_chances(kind, first, second)
}

// The chances of line k, where those of the lines below it are there.
fn line_chances(circuit: &[u8], reads: &[u8], ones: &[f64], zeros: &[f64], k: usize) -> Chances
    requires { LineReady circuit.now reads.now ones.now zeros.now k }
    ensures { Are result (exponents circuit.now (length ones.now) k) }
{
    if circuit[8 * k] == 0 {
        return certain();
    }
    floor_chances(gate_at(circuit, reads, ones, zeros, k))
}

// The chances of all lines, in one pass; before it the readings are counted, in memory that is all 0.
fn fill_chances(circuit: &[u8], reads: &mut [u8], ones: &mut [f64], zeros: &mut [f64])
    requires { FillReady circuit.now reads.old (length ones.old) (length zeros.old) }
    ensures { Filled circuit.now ones.new zeros.new }
{
    count_reads(circuit, reads);
    for k in 0..ones.len() {
        let chances = line_chances(circuit, reads, ones, zeros, k);
        ones[k] = chances.one;
        zeros[k] = chances.zero;
    }
}

// With memory of its own for the readings.
fn fill_with<const SIZE: usize>(circuit: &[u8], n: usize, ones: &mut [f64], zeros: &mut [f64])
    requires { (n ≤ SIZE) × (SIZE ≤ 2048) × RoomReady circuit.now n (length ones.old) (length zeros.old) }
    ensures { Filled circuit.now ones.new zeros.new }
{
    let mut reads = [0u8; SIZE];
    fill_chances(circuit, &mut reads[..n], ones, zeros);
}

// That memory has room for as many lines as a circuit can have. All of it is cleared first, so that a circuit of up to 128 lines gets less
// (docs/DECISIONS.md, 125).
fn fill_sized(circuit: &[u8], n: usize, ones: &mut [f64], zeros: &mut [f64])
    requires { RoomReady circuit.now n (length ones.old) (length zeros.old) }
    ensures { Filled circuit.now ones.new zeros.new }
{
    if n <= 128 {
        fill_with::<128>(circuit, n, ones, zeros);
    } else {
        fill_with::<2048>(circuit, n, ones, zeros);
    }
}

// The chances in an accepted circuit.
fn accepted(
    circuit: &[u8],
    n: usize,
    inputs: usize,
    ones: &mut [f64],
    zeros: &mut [f64],
) -> Result<(), Refusal>
    requires { Known circuit.now n inputs }
    ensures { ControlDone circuit.now n ones.old zeros.old result ones.new zeros.new }
{
    check_lent(n, ones.len(), n, zeros.len())?;
    fill_sized(circuit, n, ones, zeros);
    Ok(())
}

// The chance of 1 and the chance of 0 of each line, each exactly a power of one half; or the first refusal, and nothing is written.
pub fn control(circuit: &[u8], ones: &mut [f64], zeros: &mut [f64]) -> Result<(), Refusal>
    ensures { Controls circuit.now ones.old zeros.old result ones.new zeros.new }
{
    let counts = check(circuit)?;
    accepted(circuit, counts.lines, counts.inputs, ones, zeros)
}
