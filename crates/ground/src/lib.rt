// What every crate stands on: a choice by a test, tests over the numbers below n, and what searches over them return.
#![tactic(auto)]

ghost use Rattle.std.specs.Prelude.{◌≡◌, ◌<◌};

// A small number in two bytes.
pub fn narrow(x: usize) -> u16
    requires { x < 65536 }
    ensures { result ≡ x }
{
    x as u16
}
