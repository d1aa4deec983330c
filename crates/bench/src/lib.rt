// The reader of the bench notation: the circuit records of a text, and where the names of their lines begin. Each step makes tables and lends them to the next.
#![tactic(auto)]

ghost use Rattle.std.specs.Prelude.{◌≡◌, ◌≤◌, length};
ghost use Rattle.words.specs.Owed.{CutRoom};
ghost use Rattle.forms.specs.Forms.{gates_in};
ghost use Rattle.bench.specs.Promise.{bench_rules, Reads};
ghost use Rattle.texts.specs.Owed.{ReadUsesReady, ReadDefsReady, ReadLinesReady};
ghost use Rattle.bench.specs.Owed.{PlacesDone, TextDone};

use answers::Refusal;
use forms::put_forms;
use places::put_places;
use statements::put_defs;
use syntax::check_text;
use texts::read_uses;
use words::cut;

// ---- from the text to its tables. A step that needs memory makes it, and lends it to the function of the same name with `_in`

// The places of the names. The gates have their order by then.
fn read_placed(
    text: &[u8],
    words: &[u16],
    ends: &[u16],
    forms: &[u8],
    gates: usize,
    defs: &[u16],
    numbers: &[u16],
    order: &mut [u16],
    places: &mut [u16],
    circuit: &mut [u8],
) -> Result<usize, Refusal>
    requires read_uses_ready { ReadUsesReady text.now words.now ends.now forms.now gates defs.now numbers.now order.old }
    requires places_len { length places.old ≡ 2048 }
    ensures { TextDone text.now places.old places.new circuit.old circuit.new result }
{
    let n = read_uses(
        text, words, ends, forms, gates, defs, numbers, order, circuit,
    )?;
    put_places(defs, numbers, order, places);
    Ok(n)
}

// The names that are defined.
fn read_defs_in(
    text: &[u8],
    words: &[u16],
    ends: &[u16],
    forms: &[u8],
    gates: usize,
    defs: &mut [u16],
    numbers: &mut [u16],
    order: &mut [u16],
    places: &mut [u16],
    circuit: &mut [u8],
) -> Result<usize, Refusal>
    requires read_defs_ready { ReadDefsReady text.now words.now ends.now forms.now × (gates ≡ gates_in forms.now) }
    requires defs_len { (length defs.old ≡ 8193) × (length numbers.old ≡ 8193) × (length order.old ≡ gates) × (length places.old ≡ 2048) }
    ensures { TextDone text.now places.old places.new circuit.old circuit.new result }
{
    let d = put_defs(words, ends, forms, gates, defs, numbers);
    read_placed(
        text,
        words,
        ends,
        forms,
        gates,
        &defs[..d],
        &numbers[..d],
        order,
        places,
        circuit,
    )
}

fn read_defs(
    text: &[u8],
    words: &[u16],
    ends: &[u16],
    forms: &[u8],
    gates: usize,
    places: &mut [u16],
    circuit: &mut [u8],
) -> Result<usize, Refusal>
    requires read_defs_ready { ReadDefsReady text.now words.now ends.now forms.now × (gates ≡ gates_in forms.now) }
    requires places_len { length places.old ≡ 2048 }
    ensures { TextDone text.now places.old places.new circuit.old circuit.new result }
{
    let mut defs = [0u16; 8193];
    let mut numbers = [0u16; 8193];
    let mut order = [0u16; 8192];
    read_defs_in(
        text,
        words,
        ends,
        forms,
        gates,
        &mut defs,
        &mut numbers,
        &mut order[..gates],
        places,
        circuit,
    )
}

// The forms of the lines.
fn read_lines_in(
    text: &[u8],
    words: &[u16],
    ends: &[u16],
    forms: &mut [u8],
    places: &mut [u16],
    circuit: &mut [u8],
) -> Result<usize, Refusal>
    requires read_lines_ready { ReadLinesReady text.now words.now ends.now × (length forms.old ≡ length ends.now) × (length ends.now ≤ 32769) }
    requires places_len { length places.old ≡ 2048 }
    ensures { TextDone text.now places.old places.new circuit.old circuit.new result }
{
    let gates = put_forms(text, words, ends, forms);
    read_defs(text, words, ends, forms, gates, places, circuit)
}

fn read_lines(
    text: &[u8],
    words: &[u16],
    ends: &[u16],
    places: &mut [u16],
    circuit: &mut [u8],
) -> Result<usize, Refusal>
    requires read_lines_ready { ReadLinesReady text.now words.now ends.now × (length ends.now ≤ 32769) }
    requires places_len { length places.old ≡ 2048 }
    ensures { TextDone text.now places.old places.new circuit.old circuit.new result }
{
    let mut forms = [0u8; 32769];
    let lines = ends.len();
    read_lines_in(text, words, ends, &mut forms[..lines], places, circuit)
}

// The words.
fn read_words_in(
    text: &[u8],
    words: &mut [u16],
    ends: &mut [u16],
    places: &mut [u16],
    circuit: &mut [u8],
) -> Result<usize, Refusal>
    requires { CutRoom text.now words.old ends.old × (length places.old ≡ 2048) }
    ensures { TextDone text.now places.old places.new circuit.old circuit.new result }
{
    let found = cut(text, words, ends);
    read_lines(
        text,
        &words[..found.words],
        &ends[..found.lines],
        places,
        circuit,
    )
}

fn read_words(text: &[u8], places: &mut [u16], circuit: &mut [u8]) -> Result<usize, Refusal>
    requires { (length text.now ≤ 32768) × (length places.old ≡ 2048) }
    ensures { TextDone text.now places.old places.new circuit.old circuit.new result }
{
    let mut words = [0u16; 16385];
    let mut ends = [0u16; 32769];
    read_words_in(text, &mut words, &mut ends, places, circuit)
}

// The reader, with the places of the names for whoever asks for them.
pub fn read_text(text: &[u8], places: &mut [u16], circuit: &mut [u8]) -> Result<usize, Refusal>
    requires { length places.old ≡ 2048 }
    ensures { PlacesDone (bench_rules text.now (length circuit.old)) text.now
        places.old places.new circuit.old circuit.new result }
{
    check_text(text)?;
    read_words(text, places, circuit)
}

// The reader: how many records it wrote, or the first refusal.
pub fn bench(text: &[u8], circuit: &mut [u8]) -> Result<usize, Refusal>
    ensures { Reads text.now circuit.old circuit.new result }
{
    let mut places = [0u16; 2048];
    read_text(text, &mut places, circuit)
}
