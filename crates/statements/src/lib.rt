// The statements of a text that is right in syntax, as tables.
#![tactic(auto)]

ghost use Rattle.std.specs.Prelude.{◌≡◌, ◌||◌, ◌+◌, ◌-◌, ◌<◌, ◌≤◌, eqb, leb, take};
ghost use Rattle.ground.specs.Choose.{choose};
ghost use Rattle.forms.specs.Forms.{gates_in};
ghost use Rattle.statements.specs.Tables.{kinds_of};
ghost use Rattle.statements.specs.Owed.{DefsReady, DefsDone, OutsReady, OutsDone, SourcesReady, SourcesDone, KindsReady};

use forms::{kind_in, word_in};
use ground::narrow;

// The word of a line that is defined there.
fn def_word(form: u8) -> usize
    ensures { (result ≡ choose (leb 3 form) 0 1) × (result < 2) }
{
    if 3 <= form { 0 } else { 1 }
}

// Whether a line defines a name.
fn is_def(form: u8) -> bool
    ensures { result ≡ (eqb form 1 || leb 3 form) }
{
    form == 1 || 3 <= form
}

// The number of the name that a line defines, where g is the next gate's and n the next input's.
fn number(form: u8, g: usize, n: usize) -> usize
    ensures { (result ≡ choose (leb 3 form) g n) × (result ≤ g + n) }
{
    if 3 <= form { g } else { n }
}

// The names that are defined, in the text's order, and the number of each. How many there are.
pub fn put_defs(
    words: &[u16],
    ends: &[u16],
    forms: &[u8],
    gates: usize,
    defs: &mut [u16],
    numbers: &mut [u16],
) -> usize
    requires { DefsReady words.now ends.now forms.now gates defs.old numbers.old }
    ensures { DefsDone words.now ends.now forms.now defs.new numbers.new result }
{
    let mut g = 0;
    let mut n = gates;
    let mut d = 0;
    for (k, &form) in forms.iter().enumerate() {
        defs[d] = narrow(word_in(words, ends, k, def_word(form)));
        numbers[d] = narrow(number(form, g, n));
        g += usize::from(3 <= form);
        n += usize::from(form == 1);
        d += usize::from(is_def(form));
    }
    d
}

// The names of the outputs, as often as they are written. How many there are.
pub fn put_outs(words: &[u16], ends: &[u16], forms: &[u8], outs: &mut [u16]) -> usize
    requires { OutsReady ends.now forms.now outs.old }
    ensures { OutsDone words.now ends.now forms.now outs.new result }
{
    let mut d = 0;
    for (k, &form) in forms.iter().enumerate() {
        outs[d] = narrow(word_in(words, ends, k, 1));
        d += usize::from(form == 2);
    }
    d
}

// The word of a gate's line that is its second source: the last.
fn last_word(form: u8) -> usize
    ensures { (result ≡ form - 1) × (result < 256) }
{
    usize::from(form).saturating_sub(1)
}

// The names of each gate's sources.
pub fn put_sources(
    words: &[u16],
    ends: &[u16],
    forms: &[u8],
    firsts: &mut [u16],
    seconds: &mut [u16],
)
    requires { SourcesReady ends.now forms.now firsts.old seconds.old }
    ensures { SourcesDone words.now ends.now forms.now firsts.new seconds.new }
{
    let mut g = 0;
    for (k, &form) in forms.iter().enumerate() {
        firsts[g] = narrow(word_in(words, ends, k, 2));
        seconds[g] = narrow(word_in(words, ends, k, last_word(form)));
        g += usize::from(3 <= form);
    }
}

// The kind of each gate.
pub fn put_kinds(text: &[u8], words: &[u16], ends: &[u16], forms: &[u8], kinds: &mut [u8])
    requires { KindsReady ends.now forms.now kinds.old }
    ensures { take (gates_in forms.now) kinds.new ≡ kinds_of text.now words.now ends.now forms.now }
{
    let mut g = 0;
    for (k, &form) in forms.iter().enumerate() {
        kinds[g] = kind_in(text, words, ends, form, k);
        g += usize::from(3 <= form);
    }
}
