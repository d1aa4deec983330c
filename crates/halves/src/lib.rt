// Chances that are powers of one half: products, what a pin takes at a branch, the larger of two, and a floor. None of these is rounded.
#![tactic(auto)]

ghost use Rattle.std.specs.Prelude.{◌≡◌, ℕ, ◌+◌, ◌≤◌, min};
ghost use Rattle.ground.specs.Choose.{one};
ghost use Rattle.halves.specs.Half.{half, least, floor_exponent};

// One half to the power of 500, below which no line's chance goes.
const FLOOR: f64 = 3.054936363499605e-151;

pub fn times(a: f64, b: f64) -> f64
    ensures { (x y : ℕ) → a ≡ half x → b ≡ half y → x + y ≤ least → result ≡ half (x + y) }
{
    a * b
}

// What a pin takes of a line's chances: half where the line branches, else all. A factor and no choice between two chances, since those come late.
pub fn share(branches: bool) -> f64
    ensures { result ≡ half (one branches) }
{
    if branches { 0.5 } else { 1.0 }
}

pub fn larger(a: f64, b: f64) -> f64
    ensures { (x y : ℕ) → a ≡ half x → b ≡ half y → result ≡ half (min x y) }
{
    if a < b { b } else { a }
}

// The larger of the products a b and c d.
pub fn larger_product(a: f64, b: f64, c: f64, d: f64) -> f64
    ensures { (x y z w : ℕ) → a ≡ half x → b ≡ half y → c ≡ half z → d ≡ half w → x + y ≤ least → z + w ≤ least → result ≡ half (min (x + y) (z + w)) }
{
    larger(times(a, b), times(c, d))
}

pub fn floored(a: f64) -> f64
    ensures { (x : ℕ) → a ≡ half x → result ≡ half (min floor_exponent x) }
{
    if a < FLOOR { FLOOR } else { a }
}
