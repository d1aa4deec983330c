// The names of a text's lines: for each line of its records the place where its name begins in the text.
#![tactic(auto)]

ghost use Rattle.std.specs.Prelude.{◌≡◌, ◌≤◌, length};
ghost use Rattle.bench_names.specs.Promise.{TellsNames};
ghost use Rattle.bench_names.specs.Owed.{HandOverDone};

use answers::{Reason, Refusal};
use bench::read_text;

// How many places are lent.
const PLACES: usize = 2048;

// Refusal 10, or the places in the lent ones.
fn hand_over(found: &[u16], places: &mut [u32]) -> Result<usize, Refusal>
    requires { length found.now ≤ 2048 }
    ensures { HandOverDone found.now places.old places.new result }
{
    if places.len() != PLACES {
        return Err(Refusal(Reason::BufferSize, 0));
    }
    for (k, &place) in found.iter().enumerate() {
        places[k] = u32::from(place);
    }
    Ok(found.len())
}

// In memory for the places and for the records, which the reader checks.
fn bench_names_in(
    text: &[u8],
    found: &mut [u16],
    circuit: &mut [u8],
    places: &mut [u32],
) -> Result<usize, Refusal>
    requires { (length found.old ≡ 2048) × (length circuit.old ≡ 16384) }
    ensures { TellsNames text.now places.old places.new result }
{
    let n = read_text(text, found, circuit)?;
    hand_over(&found[..n], places)
}

// Where the names begin: how many lines there are, or the first refusal.
pub fn bench_names(text: &[u8], places: &mut [u32]) -> Result<usize, Refusal>
    ensures { TellsNames text.now places.old places.new result }
{
    let mut found = [0u16; 2048];
    let mut circuit = [0u8; 16384];
    bench_names_in(text, &mut found, &mut circuit, places)
}
