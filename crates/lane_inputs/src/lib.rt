// The values of an input in a group of up to 64 patterns, a lane each.
#![tactic(auto)]

ghost use Rattle.std.specs.Prelude.{◌≡◌, ◌*◌, ◌^◌, ◌<◌};
ghost use Rattle.ground.specs.Choose.{one};
ghost use Rattle.lanes.specs.Lanes.{laid};
ghost use Rattle.lane_inputs.specs.Owed.{GroupReady, input_lane};

use lanes::Lanes;

// The bit of lane i where a test holds.
fn lane_bit(test: bool, i: usize) -> u64
    requires { i < 64 }
    ensures { result ≡ one test * 2 ^ i }
{
    if test { 1 << i } else { 0 }
}

// The words of an input: pattern i in lane i. A lane to spare gets no bit, and so is X.
pub fn input_lanes(patterns: &[u8], inputs: usize, input: usize) -> Lanes
    requires { GroupReady inputs patterns.now × (input < inputs) }
    ensures { result ≡ laid (input_lane inputs patterns.now input) }
{
    let mut ones = 0;
    let mut zeros = 0;
    for i in 0..patterns.len() / inputs {
        let v = patterns[i * inputs + input];
        ones += lane_bit(v == 1, i);
        zeros += lane_bit(v == 0, i);
    }
    Lanes { ones, zeros }
}
