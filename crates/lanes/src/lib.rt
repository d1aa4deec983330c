// Sixty-four lanes of three values in two words, and the gate rule on them: every lane at once.
#![tactic(auto)]

ghost use Rattle.std.specs.Prelude.{◌≡◌, ◌≤◌};
ghost use Rattle.gates.specs.Gate.{last_kind};
ghost use Rattle.lanes.specs.Lanes.{laid, GateLanes};
ghost use Rattle.lanes.specs.Owed.{turns_pins, turns_result, turned_of, second_of, core_of, Lanewise, Lanewise2, Lanewise3};
ghost use Rattle.gates.specs.Words.{and_of, xor_of, select_of};

use gates::SELECTOR;

// Bit i of `ones` is set where lane i is 1, bit i of `zeros` where it is 0; where it is X, neither.
#[derive(Clone, Copy)]
pub struct Lanes {
    pub ones: u64,
    pub zeros: u64,
}

// Each lane negated, or as it is.
fn turned(turn: bool, a: Lanes) -> Lanes
    ensures { Lanewise (turned_of turn) a result }
{
    if turn {
        return Lanes {
            ones: a.zeros,
            zeros: a.ones,
        };
    }
    a
}

// AND.
fn both(a: Lanes, b: Lanes) -> Lanes
    ensures { Lanewise2 and_of a b result }
{
    Lanes {
        ones: a.ones & b.ones,
        zeros: a.zeros | b.zeros,
    }
}

// XOR: where either is X neither word gets a bit.
fn odd(a: Lanes, b: Lanes) -> Lanes
    ensures { Lanewise2 xor_of a b result }
{
    Lanes {
        ones: (a.ones & b.zeros) | (a.zeros & b.ones),
        zeros: (a.ones & b.ones) | (a.zeros & b.zeros),
    }
}

// The selector, c its select. The last term is for a select that is X, where both sources have the same known value; for a known one it adds nothing.
fn chosen(a: Lanes, b: Lanes, c: Lanes) -> Lanes
    ensures { Lanewise3 select_of a b c result }
{
    Lanes {
        ones: (c.zeros & a.ones) | (c.ones & b.ones) | (a.ones & b.ones),
        zeros: (c.zeros & a.zeros) | (c.ones & b.zeros) | (a.zeros & b.zeros),
    }
}

// OR and NOR are AND and NAND of what the pins see negated, with the result turned once more.
#[tactic(auto, unfolding(crate::specs::Owed::turns_pins))]
fn turns_pins(kind: u8) -> bool
    ensures { result ≡ turns_pins kind }
{
    matches!(kind, 5 | 6)
}

// An arm for each kind: of this comes one test of a mask, of one arm for all four a row of jumps.
#[tactic(auto, unfolding(crate::specs::Owed::turns_result))]
fn turns_result(kind: u8) -> bool
    ensures { result ≡ turns_result kind }
{
    match kind {
        2 => true,
        4 => true,
        5 => true,
        8 => true,
        _ => false,
    }
}

// Buffer and NOT have one pin, and are AND and NAND of what it sees with itself.
fn second(kind: u8, a: Lanes, b: Lanes) -> Lanes
    ensures { Lanewise2 (second_of kind) a b result }
{
    if kind <= 2 { a } else { b }
}

fn core(kind: u8, a: Lanes, b: Lanes) -> Lanes
    ensures { Lanewise2 (core_of kind) a b result }
{
    if 7 <= kind { odd(a, b) } else { both(a, b) }
}

// The value of a gate whose pins see a, b and c, in every lane; a kind takes no notice of what is at a pin that it lacks. Every gate but the selector is
// AND or XOR, with its pins or its result negated: a few choices, and no jump by the kind but the one for the selector.
pub fn gate_lanes(kind: u8, a: Lanes, b: Lanes, c: Lanes) -> Lanes
    requires { (1 ≤ kind) × (kind ≤ last_kind) }
    ensures { GateLanes kind a b c result }
{
    if kind == SELECTOR {
        return chosen(a, b, c);
    }
    let turn = turns_pins(kind);
    let x = turned(turn, a);
    let y = turned(turn, second(kind, a, b));
    turned(turns_result(kind), core(kind, x, y))
}

// One known value in every lane.
pub fn same_lanes(value: u8) -> Lanes
    requires { value ≤ 1 }
    ensures { result ≡ laid (λ i. value) }
{
    if value == 1 {
        return Lanes {
            ones: 0xffff_ffff_ffff_ffff,
            zeros: 0,
        };
    }
    Lanes {
        ones: 0,
        zeros: 0xffff_ffff_ffff_ffff,
    }
}
