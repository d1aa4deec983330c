// A table of entries and its marks as lines of text, and a refusal as text: bytes in lent memory.
#![tactic(auto)]

ghost use Rattle.std.specs.Prelude.{◌≡◌, [], ◌∷◌, map, ◌+◌, ◌≤◌, length};
ghost use Rattle.ground.specs.Put.{Put};
ghost use Rattle.letters.specs.Text.{letter_of, mark_of, line_text, lines_to, refused_word, refused_text};
ghost use Rattle.letters.specs.Owed.{PutLinesRoom};

use decimals::{put_byte, put_decimal};

// The letter of an entry.
fn letter(entry: u8) -> u8
    ensures { result ≡ letter_of entry }
{
    match entry {
        0 => b'P',
        1 => b'F',
        _ => b'U',
    }
}

// Whether a pattern is kept or dropped.
fn mark_letter(mark: u8) -> u8
    ensures { result ≡ mark_of mark }
{
    if mark == 1 { b'K' } else { b'D' }
}

// The letters of a row.
fn put_letters(out: &mut [u8], at: usize, row: &[u8]) -> usize
    requires { at + length row.now ≤ length out.old }
    ensures { Put out.old out.new at (map letter_of row.now) result }
{
    for i in 0..row.len() {
        out[at + i] = letter(row[i]);
    }
    at + row.len()
}

// Three bytes.
fn put_three(out: &mut [u8], at: usize, a: u8, b: u8, c: u8) -> usize
    requires { at + 3 ≤ length out.old }
    ensures { Put out.old out.new at (a ∷ b ∷ c ∷ []) result }
{
    out[at..at + 3].copy_from_slice(&[a, b, c]);
    at + 3
}

// The line of a pattern.
fn put_line(out: &mut [u8], at: usize, p: usize, mark: u8, row: &[u8]) -> usize
    requires { at + (length row.now + 24) ≤ length out.old }
    ensures { Put out.old out.new at (line_text p mark row.now) result }
{
    let kept = mark_letter(mark);
    let number = put_decimal(out, at, p);
    let letters = put_three(out, number, b' ', kept, b' ');
    let end = put_letters(out, letters, row);
    put_byte(out, end, b'\n')
}

// The lines of all patterns.
pub fn put_lines(
    out: &mut [u8],
    table: &[u8],
    marks: &[u8],
    faults: usize,
    patterns: usize,
) -> usize
    requires { PutLinesRoom table.now marks.now out.old faults patterns }
    ensures { Put out.old out.new 0 (lines_to faults table.now marks.now patterns) result }
{
    let mut at = 0;
    for p in 0..patterns {
        let from = p * faults;
        at = put_line(out, at, p, marks[p], &table[from..from + faults]);
    }
    at
}

// The word that a refusal starts with, and a space.
fn put_refused_word(out: &mut [u8])
    requires { 8 ≤ length out.old }
    ensures { Put out.old out.new 0 refused_word 8 }
{
    out[..8].copy_from_slice(b"refused ");
}

// The line of a refusal.
pub fn put_refused(out: &mut [u8], number: u32, place: usize) -> usize
    requires { 50 ≤ length out.old }
    ensures { Put out.old out.new 0 (refused_text number place) result }
{
    put_refused_word(out);
    let space = put_decimal(out, 8, number as usize);
    let at = put_byte(out, space, b' ');
    let end = put_decimal(out, at, place);
    put_byte(out, end, b'\n')
}
