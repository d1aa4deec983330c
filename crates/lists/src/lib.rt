// The lists that come with a circuit: fault records and patterns, and the refusals 6 to 9.
#![tactic(auto)]

ghost use Rattle.std.specs.Prelude.{◌≡◌, ◌*◌, ◌<◌, ◌≤◌, length};
ghost use Rattle.ground.specs.Below.{first_failing};
ghost use Rattle.answers.specs.Rules.{refusal};
ghost use Rattle.circuit.specs.Record.{Inside};
ghost use Rattle.lists.specs.Faults.{fault_at, fault_ok, fault_rules};
ghost use Rattle.lists.specs.Patterns.{pattern_rules};
ghost use Rattle.lists.specs.Both.{list_rules};

use answers::{Reason, Refusal, first_big, records_ok};
use gates::pins;
use little::pair_at;

// The largest stuck value.
const LARGEST_VALUE: u8 = 1;

// A single stuck-at fault: at the line itself (site 0) or at one of its pins.
#[derive(Clone, Copy)]
pub struct Fault {
    pub line: usize,
    pub site: u8,
    pub value: u8,
}

// The fault of record j.
pub fn read_fault(faults: &[u8], j: usize) -> Fault
    requires { Inside faults.now j }
    ensures { result ≡ fault_at faults.now j }
{
    let line = pair_at(faults, 8 * j);
    let site = faults[8 * j + 2];
    let value = faults[8 * j + 3];
    Fault { line, site, value }
}

// The record of fault j keeps its layout, and names a line of the circuit.
fn fault_ok(circuit: &[u8], faults: &[u8], j: usize) -> bool
    requires { Inside faults.now j }
    ensures { result ≡ fault_ok circuit.now faults.now j }
{
    let n = circuit.len() / 8;
    let line = pair_at(faults, 8 * j);
    line < n
        && usize::from(faults[8 * j + 2]) <= pins(circuit[8 * line])
        && faults[8 * j + 3] <= LARGEST_VALUE
        && pair_at(faults, 8 * j + 4) == 0
        && pair_at(faults, 8 * j + 6) == 0
}

// The first of n fault records that is bad.
fn first_bad_fault(circuit: &[u8], faults: &[u8], n: usize) -> Option<usize>
    requires { 8 * n ≤ length faults.now }
    ensures { result ≡ first_failing n (fault_ok circuit.now faults.now) }
{
    (0..n).find(|&j| !fault_ok(circuit, faults, j))
}

// Refusals 6 and 7, of at most so many faults.
pub fn check_faults(circuit: &[u8], faults: &[u8], most: usize) -> Result<(), Refusal>
    ensures { result ≡ refusal (fault_rules most circuit.now faults.now) }
{
    if !records_ok(faults.len(), 8, most) {
        return Err(Refusal(Reason::FaultsSize, 0));
    }
    let n = faults.len() / 8;
    if let Some(bad) = first_bad_fault(circuit, faults, n) {
        return Err(Refusal(Reason::FaultLayout, bad));
    }
    Ok(())
}

// Refusals 8 and 9.
pub fn check_patterns(patterns: &[u8], inputs: usize) -> Result<(), Refusal>
    requires { 0 < inputs }
    ensures { result ≡ refusal (pattern_rules inputs patterns.now) }
{
    if !records_ok(patterns.len(), inputs, 256) {
        return Err(Refusal(Reason::PatternsSize, 0));
    }
    let bad = first_big(patterns);
    if bad < patterns.len() {
        return Err(Refusal(Reason::PatternByte, bad));
    }
    Ok(())
}

// Refusals 6 to 9: the faults, then the patterns.
pub fn check_lists(
    circuit: &[u8],
    inputs: usize,
    faults: &[u8],
    patterns: &[u8],
) -> Result<(), Refusal>
    requires { 0 < inputs }
    ensures { result ≡ refusal (list_rules circuit.now inputs faults.now patterns.now) }
{
    check_faults(circuit, faults, 256)?;
    check_patterns(patterns, inputs)
}
