// Where the names of the lines begin: the bytes of the definitions, in the order of the lines.
#![tactic(auto)]

ghost use Rattle.std.specs.Prelude.{◌≡◌, ◌+◌, ◌-◌, ◌≤◌, ◌<◌, length};
ghost use Rattle.ground.specs.Put.{laid_on};
ghost use Rattle.places.specs.Owed.{number_by, places_by, PutPlacesReady, PutPlacesInReady};

use records::number_lines;

// The number that stands on line k: that of an input, or of the gate that is next in the order.
#[tactic(auto, unfolding(crate::specs::Owed::number_by))]
fn number_on(inputs: usize, order: &[u16], k: usize) -> usize
    requires { (inputs + length order.now ≤ 2048) × (k < inputs + length order.now) }
    ensures { result ≡ number_by inputs order.now k }
{
    if k < inputs {
        order.len() + k
    } else {
        usize::from(order[k - inputs])
    }
}

// In memory for the definition of each number.
fn put_places_in(defs: &[u16], numbers: &[u16], order: &[u16], def: &mut [u16], places: &mut [u16])
    requires { PutPlacesInReady defs.now numbers.now order.now def.old places.old }
    ensures { places.new ≡ laid_on places.old (places_by defs.now numbers.now order.now) }
{
    number_lines(numbers, 0, def);
    let inputs = defs.len() - order.len();
    for k in 0..defs.len() {
        let x = number_on(inputs, order, k);
        let d = usize::from(def[x]);
        places[k] = defs[d];
    }
}

// Writes the place of each line's name.
pub fn put_places(defs: &[u16], numbers: &[u16], order: &[u16], places: &mut [u16])
    requires { PutPlacesReady defs.now numbers.now order.now places.old }
    ensures { places.new ≡ laid_on places.old (places_by defs.now numbers.now order.now) }
{
    let mut def = [0u16; 2048];
    let lines = defs.len();
    put_places_in(defs, numbers, order, &mut def[..lines], places);
}
