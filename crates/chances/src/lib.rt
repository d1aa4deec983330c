// The chances of setting a gate, by its kind, from what its pins see.
#![tactic(auto)]

ghost use Rattle.std.specs.Prelude.{◌≡◌};
ghost use Rattle.gates.specs.Gate.{selector};
ghost use Rattle.chances.specs.Exponents.{sure, exchange, and_exponents, or_exponents, xor_exponents, select_exponents};
ghost use Rattle.chances.specs.Owed.{Are, GateDone, FromTwo, FromThree, Floored, Exchanged};

use halves::{floored, larger, larger_product, times};

// The chance of 1 and that of 0.
#[derive(Drop)]
pub struct Chances {
    pub one: f64,
    pub zero: f64,
}

// An input: 1 and 1.
pub fn certain() -> Chances
    ensures { Are result sure }
{
    Chances {
        one: 1.0,
        zero: 1.0,
    }
}

fn exchanged(p: Chances) -> Chances
    ensures { Exchanged p result }
{
    Chances {
        one: p.zero,
        zero: p.one,
    }
}

// Both pins for 1, the easier one for 0.
fn and(p: Chances, q: Chances) -> Chances
    ensures { FromTwo and_exponents p q result }
{
    Chances {
        one: times(p.one, q.one),
        zero: larger(p.zero, q.zero),
    }
}

// The easier pin for 1, both for 0.
fn or(p: Chances, q: Chances) -> Chances
    ensures { FromTwo or_exponents p q result }
{
    Chances {
        one: larger(p.one, q.one),
        zero: times(p.zero, q.zero),
    }
}

// The easier of two ways to make both pins different, and of two to make them equal.
fn xor(p: Chances, q: Chances) -> Chances
    ensures { FromTwo xor_exponents p q result }
{
    Chances {
        one: larger_product(p.zero, q.one, p.one, q.zero),
        zero: larger_product(p.zero, q.zero, p.one, q.one),
    }
}

// The first source with the select at 0, or the second with the select at 1, whichever is easier.
pub fn select(p: Chances, q: Chances, s: Chances) -> Chances
    ensures { FromThree select_exponents p q s result }
{
    Chances {
        one: larger_product(p.one, s.zero, q.one, s.one),
        zero: larger_product(p.zero, s.zero, q.zero, s.one),
    }
}

// Of the kinds with at most two pins. A kind without a rule has the chances of an input.
pub fn gate_chances(kind: u8, p: Chances, q: Chances) -> Chances
    ensures { (kind ≡ selector → ⊥) → GateDone kind p q result }
{
    match kind {
        1 => p,
        2 => exchanged(p),
        3 => and(p, q),
        4 => exchanged(and(p, q)),
        5 => or(p, q),
        6 => exchanged(or(p, q)),
        7 => xor(p, q),
        8 => exchanged(xor(p, q)),
        _ => certain(),
    }
}

// No chance of a line is below the floor.
pub fn floor_chances(p: Chances) -> Chances
    ensures { Floored p result }
{
    Chances {
        one: floored(p.one),
        zero: floored(p.zero),
    }
}
