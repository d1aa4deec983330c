// The lines of a text that is right in syntax: the words of each, its form, and of a gate its kind.
#![tactic(auto)]

ghost use Rattle.std.specs.Prelude.{◌≡◌, ◌≤◌, ◌<◌, leb, length};
ghost use Rattle.ground.specs.Choose.{choose};
ghost use Rattle.words.specs.Words.{word_at, same};
ghost use Rattle.words.specs.Owed.{KeywordReady};
ghost use Rattle.syntax.specs.Kinds.{kind_of};
ghost use Rattle.forms.specs.Lines.{start_at, word_in, size_at, form_of};
ghost use Rattle.forms.specs.Owed.{FormsDone};

use words::is_name;

// ---- a line's words

// How many words stand before line k.
#[tactic(auto, using(crate::proofs::Lines::later_line, crate::proofs::Lines::first_line))]
fn start_of(ends: &[u16], k: usize) -> usize
    requires { k ≤ length ends.now }
    ensures { (result ≡ start_at ends.now k) × (result < 65536) }
{
    if k == 0 { 0 } else { usize::from(ends[k - 1]) }
}

// Word j of line k.
#[tactic(auto, unfolding(crate::specs::Lines::word_in))]
pub fn word_in(words: &[u16], ends: &[u16], k: usize, j: usize) -> usize
    requires { (k ≤ length ends.now) × (j < 256) }
    ensures { (result ≡ word_in words.now ends.now k j) × (result < 65536) }
{
    let word = words.get(start_of(ends, k) + j);
    usize::from(word.copied().unwrap_or(0))
}

// How many words line k has.
#[tactic(auto, unfolding(crate::specs::Lines::size_at))]
fn size_of(ends: &[u16], k: usize) -> usize
    requires { k < length ends.now }
    ensures { result ≡ size_at ends.now k }
{
    usize::from(ends[k]).saturating_sub(start_of(ends, k))
}

// ---- its form

// The form of line k.
#[tactic(auto, unfolding(crate::specs::Lines::form_of, syntax::specs::Kinds::input_word, words::specs::Owed::all_word, words::specs::Words::word_byte, words::specs::Words::within))]
fn form_of(text: &[u8], words: &[u16], ends: &[u16], k: usize) -> u8
    requires { k < length ends.now }
    ensures { result ≡ form_of text.now words.now ends.now k }
{
    match size_of(ends, k) {
        2 if is_name(text, word_in(words, ends, k, 0), b"INPUT") => 1,
        2 => 2,
        3 => 3,
        4 => 4,
        _ => 0,
    }
}

// The form of each line; how many gates there are.
pub fn put_forms(text: &[u8], words: &[u16], ends: &[u16], forms: &mut [u8]) -> usize
    requires { (length forms.old ≡ length ends.now) × (length ends.now < 65536) }
    ensures { FormsDone text.now words.now ends.now forms.new result }
{
    let mut gates = 0;
    for (k, form) in forms.iter_mut().enumerate() {
        *form = form_of(text, words, ends, k);
        gates += usize::from(3 <= *form);
    }
    gates
}

// ---- its kind

// This kind where the word at a byte is its name, else the other.
fn kind_if(text: &[u8], at: usize, name: &[u8], kind: u8, other: u8) -> u8
    requires { KeywordReady name.now at }
    ensures { result ≡ choose (same (word_at text.now at) name.now) kind other }
{
    if is_name(text, at, name) { kind } else { other }
}

// The kind that the word at a byte names, or 0. The names all differ, so none need be left out once one fits.
#[tactic(auto, unfolding(syntax::specs::Kinds::kind_of, syntax::specs::Kinds::kinds, words::specs::Owed::all_word, words::specs::Words::word_byte, words::specs::Words::within))]
fn kind_of(text: &[u8], at: usize) -> u8
    requires { at < 65536 }
    ensures { result ≡ kind_of (word_at text.now at) }
{
    let r = kind_if(text, at, b"XNOR", 8, 0);
    let r = kind_if(text, at, b"XOR", 7, r);
    let r = kind_if(text, at, b"NOR", 6, r);
    let r = kind_if(text, at, b"OR", 5, r);
    let r = kind_if(text, at, b"NAND", 4, r);
    let r = kind_if(text, at, b"AND", 3, r);
    let r = kind_if(text, at, b"NOT", 2, r);
    kind_if(text, at, b"BUFF", 1, r)
}

// The kind of a line that is a gate; of other lines it is not asked.
pub fn kind_in(text: &[u8], words: &[u16], ends: &[u16], form: u8, k: usize) -> u8
    requires { k ≤ length ends.now }
    ensures { result ≡ choose (leb 3 form) (kind_of (word_at text.now (word_in words.now ends.now k 1))) 0 }
{
    if 3 <= form {
        kind_of(text, word_in(words, ends, k, 1))
    } else {
        0
    }
}
