// The order of the gates of a text, always the earliest whose sources are placed, and refusal 16.
#![tactic(auto)]

ghost use Rattle.std.specs.Prelude.{◌≡◌, ◌+◌, ◌<◌, ◌≤◌, eqb, length, get_or, set};
ghost use Rattle.ground.specs.Below.{first_failing};
ghost use Rattle.answers.specs.declared.Reason.TheVariants.{BenchCycle};
ghost use Rattle.answers.specs.Rules.{each, said};
ghost use Rattle.order.specs.Owed.{there_by, ready_by, Back, PlaceReady, PlaceDone, ArrangeRoom, ArrangeInReady, ArrangeDone};

use answers::{Reason, Refusal};
use ground::narrow;

// A source is an input, or a gate that is placed.
#[tactic(auto, unfolding(crate::specs::Owed::there_by))]
fn is_there(placed: &[u8], s: usize) -> bool
    ensures { result ≡ there_by placed.now s }
{
    placed.len() <= s || placed[s] == 1
}

// A gate that is not placed is ready where both its sources are there.
#[tactic(auto, unfolding(crate::specs::Owed::ready_by))]
fn is_ready(a: &[u16], b: &[u16], placed: &[u8], g: usize) -> bool
    requires { (g < length a.now) × (length b.now ≡ length a.now) × (length placed.now ≡ length a.now) }
    ensures { result ≡ ready_by a.now b.now placed.now g }
{
    placed[g] == 0 && is_there(placed, usize::from(a[g])) && is_there(placed, usize::from(b[g]))
}

// Where to go on after g was placed.
fn back(reader: &[u16], g: usize) -> usize
    requires { g < length reader.now }
    ensures { (result ≤ g + 1) × (result ≤ get_or reader.now g 0) }
{
    usize::from(reader[g]).min(g + 1)
}

// Writes the gates in order, marks each that is placed, and returns how many there are. A `while`, since the search goes back to a reader of the gate.
fn place(a: &[u16], b: &[u16], reader: &[u16], placed: &mut [u8], order: &mut [u16]) -> usize
    requires { PlaceReady a.now b.now reader.now placed.old order.old }
    ensures { PlaceDone a.now b.now placed.new order.new result }
{
    let mut n = 0;
    let mut c = 0;
    while c < a.len() {
        if is_ready(a, b, placed, c) {
            placed[c] = 1;
            order[n] = narrow(c);
            n += 1;
            c = back(reader, c);
        } else {
            c += 1;
        }
    }
    n
}

// The gate h has the source s, and no gate before h is known to have it.
fn note(reader: &mut [u16], s: usize, h: usize)
    requires { h < 65536 }
    ensures { reader.new ≡ set reader.old s h }
{
    // `get_mut` would promise nothing of the list where it finds no such place
    if s < reader.len() {
        reader[s] = narrow(h);
    }
}

// The first gate that has each gate as a source, or an earlier one.
fn readers(a: &[u16], b: &[u16], reader: &mut [u16])
    requires { (length a.now < 65536) × (length b.now ≡ length a.now) × (length reader.old ≡ length a.now) }
    ensures { Back a.now b.now reader.new }
{
    for h in (0..a.len()).rev() {
        note(reader, usize::from(a[h]), h);
        note(reader, usize::from(b[h]), h);
    }
}

// The first gate that is not placed.
fn first_left(placed: &[u8]) -> Option<usize>
    ensures { result ≡ first_failing (length placed.now) (λ g. eqb (get_or placed.now g 0) 1) }
{
    placed.iter().position(|&mark| mark != 1)
}

// Refusal 16, where the gates that are placed are marked.
#[tactic(auto, unfolding(answers::specs::Rules::said))]
fn rule_placed(placed: &[u8]) -> Result<(), Refusal>
    ensures { result ≡ said (each BenchCycle (length placed.now) (λ g. eqb (get_or placed.now g 0) 1) (λ g. Unit)) }
{
    if let Some(left) = first_left(placed) {
        return Err(Refusal(Reason::BenchCycle, left));
    }
    Ok(())
}

// In memory for the first readers and for the marks.
fn arrange_in(
    a: &[u16],
    b: &[u16],
    reader: &mut [u16],
    placed: &mut [u8],
    order: &mut [u16],
) -> Result<(), Refusal>
    requires { ArrangeInReady a.now b.now reader.old placed.old order.old }
    ensures { ArrangeDone a.now b.now order.new result }
{
    readers(a, b, reader);
    place(a, b, reader, placed, order);
    rule_placed(placed)
}

// The order of all gates, or the first in the text that can't be placed.
pub fn arrange(a: &[u16], b: &[u16], order: &mut [u16]) -> Result<(), Refusal>
    requires { ArrangeRoom a.now b.now order.old }
    ensures { ArrangeDone a.now b.now order.new result }
{
    // a gate that nobody reads is followed by the next one
    let mut reader = [65535u16; 8192];
    let mut placed = [0u8; 8192];
    let gates = a.len();
    arrange_in(a, b, &mut reader[..gates], &mut placed[..gates], order)
}
