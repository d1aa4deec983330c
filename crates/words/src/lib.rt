// The words of a text: where they begin, line by line, and whether two are the same.
#![tactic(auto)]

ghost use Rattle.std.specs.Prelude.{◌≡◌, ◌&&◌, ◌+◌, ◌<◌, eqb, length, get_or, set};
ghost use Rattle.ground.specs.Choose.{choose, one};
ghost use Rattle.words.specs.Words.{word_byte, word_at, same, mode};
ghost use Rattle.words.specs.Owed.{CutRoom, CutDone, KeywordReady, WordTable};

use ground::narrow;

// The byte with which a comment begins, #.
const COMMENT: u8 = b'#';

// A letter, a digit or _. The ranges are gone through from the lowest up: names are found by this, byte by byte, and those of digits
// took 1.6 times as long by a test of all ranges at once.
#[tactic(auto, using(crate::proofs::Ranges::by_ranges))]
pub fn is_word(b: u8) -> bool
    ensures { result ≡ word_byte b }
{
    b >= b'0' && (b <= b'9' || b >= b'A' && (b <= b'Z' || b == b'_' || b >= b'a' && b <= b'z'))
}

// The byte at a place, or 0 past the end.
pub fn byte(text: &[u8], i: usize) -> u8
    ensures { result ≡ get_or text.now i 0 }
{
    text.get(i).copied().unwrap_or(0)
}

// Whether the words at two places are the same. A `while`, since no slice says where a word ends: its bytes do.
pub fn same_word(text: &[u8], i: usize, j: usize) -> bool
    ensures { result ≡ same (word_at text.now i) (word_at text.now j) }
{
    let mut x = i;
    let mut y = j;
    while is_word(byte(text, x)) {
        if byte(text, y) != byte(text, x) {
            return false;
        }
        x += 1;
        y += 1;
    }
    !is_word(byte(text, y))
}

// Whether the word at a place is this one.
pub fn is_name(text: &[u8], at: usize, name: &[u8]) -> bool
    requires { KeywordReady name.now at }
    ensures { result ≡ same (word_at text.now at) name.now }
{
    for (k, &letter) in name.iter().enumerate() {
        if byte(text, at + k) != letter {
            return false;
        }
    }
    !is_word(byte(text, at + name.len()))
}

// Whether each byte belongs to a word: `w` if so, 32 bytes to a line.
fn word_table() -> [u8; 256]
    ensures { WordTable result }
{
    *b"\
        ................................\
        ................wwwwwwwwww......\
        .wwwwwwwwwwwwwwwwwwwwwwwwww....w\
        .wwwwwwwwwwwwwwwwwwwwwwwwww.....\
        ................................\
        ................................\
        ................................\
        ................................"
}

// Whether a byte belongs to a word, by the table.
#[tactic(auto, using(crate::proofs::Table::byte_at))]
fn in_word(table: &[u8; 256], b: u8) -> bool
    requires { WordTable table.now }
    ensures { result ≡ word_byte b }
{
    table[usize::from(b)] == b'w'
}

// Where a byte leads: 0 between words, 1 in a word, 2 in a comment, as the definition `mode` numbers them. The caller knows whether the byte belongs to a word.
#[tactic(auto, unfolding(crate::specs::Words::mode))]
fn lead(m: u8, b: u8, x: bool) -> u8
    requires { x ≡ word_byte b }
    ensures { result ≡ mode m b }
{
    if b == b'\n' {
        0
    } else if m == 2 || b == COMMENT {
        2
    } else {
        u8::from(x)
    }
}

// Whether a word begins with a byte that belongs to a word or not.
fn begun(m: u8, x: bool) -> bool
    ensures { result ≡ (eqb m 0 && x) }
{
    m == 0 && x
}

// Where line k ends here, writes how many words stand before its end. The line after this byte.
fn end_line(ends: &mut [u16], k: usize, w: usize, b: u8) -> usize
    requires { (k < length ends.old) × (w < 65536) × (k < 65536) }
    ensures { (ends.new ≡ choose (eqb b 10) (set ends.old k w) ends.old) × (result ≡ k + one (eqb b 10)) }
{
    if b == b'\n' {
        ends[k] = narrow(w);
        return k + 1;
    }
    k
}

// How many words and lines a text has.
#[derive(Drop)]
pub struct Found {
    pub words: usize,
    pub lines: usize,
}

// Writes where each word begins, and how many words stand before each line's end. The table is made once, before the first byte.
pub fn cut(text: &[u8], words: &mut [u16], ends: &mut [u16]) -> Found
    requires { CutRoom text.now words.old ends.old }
    ensures { CutDone text.now words.new ends.new result.words result.lines }
{
    let table = word_table();
    let mut m = 0;
    let mut w = 0;
    let mut k = 0;
    for (i, &b) in text.iter().enumerate() {
        let x = in_word(&table, b);
        k = end_line(ends, k, w, b);
        words[w] = narrow(i);
        w += usize::from(begun(m, x));
        m = lead(m, b, x);
    }
    ends[k] = narrow(w);
    Found {
        words: w,
        lines: k + 1,
    }
}
