// The last tables of a text, of its gates' kinds and of the names that are used; with these it is a net whose sources are names.
#![tactic(auto)]

ghost use Rattle.std.specs.Prelude.{◌≡◌, length};
ghost use Rattle.texts.specs.Owed.{UsesDone, ReadUsesReady};

use answers::Refusal;
use nets::read_names;
use statements::{put_kinds, put_outs, put_sources};

// In memory for these tables.
fn read_uses_in(
    text: &[u8],
    words: &[u16],
    ends: &[u16],
    forms: &[u8],
    gates: usize,
    defs: &[u16],
    numbers: &[u16],
    kinds: &mut [u8],
    firsts: &mut [u16],
    seconds: &mut [u16],
    outs: &mut [u16],
    order: &mut [u16],
    circuit: &mut [u8],
) -> Result<usize, Refusal>
    requires read_uses_ready { ReadUsesReady text.now words.now ends.now forms.now gates defs.now numbers.now order.old }
    requires kinds_len { (length kinds.old ≡ 8193) × (length firsts.old ≡ 8193) × (length seconds.old ≡ 8193) × (length outs.old ≡ 8193) }
    ensures { UsesDone text.now order.new circuit.old circuit.new result }
{
    put_kinds(text, words, ends, forms, kinds);
    put_sources(words, ends, forms, firsts, seconds);
    let u = put_outs(words, ends, forms, outs);
    let inputs = defs.len() - gates;
    read_names(
        text,
        defs,
        numbers,
        inputs,
        &kinds[..gates],
        &firsts[..gates],
        &seconds[..gates],
        &outs[..u],
        order,
        circuit,
    )
}

// The kinds of the gates, and the names that are used; with these the reading goes on to the records.
pub fn read_uses(
    text: &[u8],
    words: &[u16],
    ends: &[u16],
    forms: &[u8],
    gates: usize,
    defs: &[u16],
    numbers: &[u16],
    order: &mut [u16],
    circuit: &mut [u8],
) -> Result<usize, Refusal>
    requires { ReadUsesReady text.now words.now ends.now forms.now gates defs.now numbers.now order.old }
    ensures { UsesDone text.now order.new circuit.old circuit.new result }
{
    let mut kinds = [0u8; 8193];
    let mut firsts = [0u16; 8193];
    let mut seconds = [0u16; 8193];
    let mut outs = [0u16; 8193];
    read_uses_in(
        text,
        words,
        ends,
        forms,
        gates,
        defs,
        numbers,
        &mut kinds,
        &mut firsts,
        &mut seconds,
        &mut outs,
        order,
        circuit,
    )
}
