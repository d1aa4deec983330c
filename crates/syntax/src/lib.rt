// The syntax of the bench notation: a table that is walked byte by byte.
#![tactic(auto)]

ghost use Rattle.std.specs.Prelude.{◌≡◌, ◌*◌, ◌-◌, ◌/◌, ◌<◌, length};
ghost use Rattle.answers.specs.Rules.{refusal};
ghost use Rattle.syntax.specs.Derivative.{next};
ghost use Rattle.syntax.specs.Grammar.{symbol};
ghost use Rattle.syntax.specs.Owed.{SymbolTable, StateTable, Row, RowTable, state_of};
ghost use Rattle.syntax.specs.Syntax.{syntax_rules};

use answers::{Reason, Refusal};

// The most bytes of a text.
const MOST_BYTES: usize = 32768;

// Where the rows begin of the states in which no text ends: in a word, or after it in the middle of a statement.
const NO_END: usize = 92;

// The symbol of each byte, as a letter from `a` on, 32 bytes to a line.
fn symbol_table() -> [u8; 256]
    ensures { SymbolTable result }
{
    *b"\
        uuuuuuuuuabuuauuuuuuuuuuuuuuuuuu\
        auucuuuudeuufuuuttttttttttuuuguu\
        uhitjtkttlttttmnotptqrttsttuuuut\
        uttttttttttttttttttttttttttuuuuu\
        uuuuuuuuuuuuuuuuuuuuuuuuuuuuuuuu\
        uuuuuuuuuuuuuuuuuuuuuuuuuuuuuuuu\
        uuuuuuuuuuuuuuuuuuuuuuuuuuuuuuuu\
        uuuuuuuuuuuuuuuuuuuuuuuuuuuuuuuu"
}

// The states of the reader, as characters from `.` on. Each line has a state, a blank, and the state that follows at each symbol.
//   .       nothing can go on
//   /       at the start of a line
//   0       in a comment
//   1       after a statement
//   2 to A  in the first word of a line, of 1, 2, 3 .. letters; A also after it
//   B to G  in INPUT and after it
//   H to M  in OUTPUT
//   N       before the last argument
//   O       after =
//   P, Q    after a kind of one argument, of two
//   R       before the first of two arguments
//   S to \  in the name of a kind
//   ] to l  in the first of two arguments, of 1, 2, 3 .. letters; l also after it
//   m to |  in the last argument, likewise
// The symbols, column by column: a blank, LF, # ( ) , = A B D F I N O P R T U X, any other letter, digit or _, any other byte.
fn state_table() -> [u8; 1817]
    ensures { StateTable result }
{
    *b"\
        . .....................\
        / //0....2222B2H222222.\
        0 0/0000000000000000000\
        1 1/0..................\
        2 A.....O3333333333333.\
        3 A.....O4444444444444.\
        4 A.....O5555555555555.\
        5 A.....O6666666666666.\
        6 A.....O7777777777777.\
        7 A.....O8888888888888.\
        8 A.....O9999999999999.\
        9 A.....O:::::::::::::.\
        : A.....O;;;;;;;;;;;;;.\
        ; A.....O<<<<<<<<<<<<<.\
        < A.....O=============.\
        = A.....O>>>>>>>>>>>>>.\
        > A.....O?????????????.\
        ? A.....O@@@@@@@@@@@@@.\
        @ A.....OAAAAAAAAAAAAA.\
        A A.....O..............\
        B A.....O33333C3333333.\
        C A.....O4444444D44444.\
        D A.....O5555555555E55.\
        E A.....O666666666F666.\
        F G..N..O7777777777777.\
        G G..N..O..............\
        H A.....O3333333333I33.\
        I A.....O444444444J444.\
        J A.....O5555555K55555.\
        K A.....O6666666666L66.\
        L A.....O777777777M777.\
        M G..N..O8888888888888.\
        N N......mmmmmmmmmmmmm.\
        O O......SU...XZ....[..\
        P P..N.................\
        Q Q..R.................\
        R R......]]]]]]]]]]]]].\
        S ............T........\
        T .........Q...........\
        U .................V...\
        V ..........W..........\
        W ..........P..........\
        X .......S.....Y.......\
        Y ...............QP....\
        Z ...............Q.....\
        [ ............\\Z.......\
        \\ .............Z.......\
        ] l....N.^^^^^^^^^^^^^.\
        ^ l....N._____________.\
        _ l....N.`````````````.\
        ` l....N.aaaaaaaaaaaaa.\
        a l....N.bbbbbbbbbbbbb.\
        b l....N.ccccccccccccc.\
        c l....N.ddddddddddddd.\
        d l....N.eeeeeeeeeeeee.\
        e l....N.fffffffffffff.\
        f l....N.ggggggggggggg.\
        g l....N.hhhhhhhhhhhhh.\
        h l....N.iiiiiiiiiiiii.\
        i l....N.jjjjjjjjjjjjj.\
        j l....N.kkkkkkkkkkkkk.\
        k l....N.lllllllllllll.\
        l l....N...............\
        m |...1..nnnnnnnnnnnnn.\
        n |...1..ooooooooooooo.\
        o |...1..ppppppppppppp.\
        p |...1..qqqqqqqqqqqqq.\
        q |...1..rrrrrrrrrrrrr.\
        r |...1..sssssssssssss.\
        s |...1..ttttttttttttt.\
        t |...1..uuuuuuuuuuuuu.\
        u |...1..vvvvvvvvvvvvv.\
        v |...1..wwwwwwwwwwwww.\
        w |...1..xxxxxxxxxxxxx.\
        x |...1..yyyyyyyyyyyyy.\
        y |...1..zzzzzzzzzzzzz.\
        z |...1..{{{{{{{{{{{{{.\
        { |...1..|||||||||||||.\
        | |...1................"
}

// The symbol of a byte.
#[tactic(auto, using(crate::proofs::Table::symbol_at, crate::proofs::Table::symbol_small))]
fn symbol_of(symbols: &[u8; 256], b: u8) -> usize
    requires { SymbolTable symbols.now }
    ensures { (result ≡ symbol b) × (result < 21) }
{
    usize::from(symbols[usize::from(b)] - b'a')
}

// Where the row of the state with this character begins; the blank of a row is no state.
fn row_of(b: u8) -> u16
    ensures { result ≡ 23 * (b - 46) }
{
    23 * u16::from(b.saturating_sub(b'.'))
}

// Puts the beginning of its row for each character.
fn put_rows(states: &[u8; 1817], rows: &mut [u16])
    requires { StateTable states.now × (length rows.old ≡ 1817) }
    ensures { RowTable rows.new }
{
    for (k, &state) in states.iter().enumerate() {
        rows[k] = row_of(state);
    }
}

// The row of the state after a symbol.
#[tactic(auto, using(crate::proofs::Rows::step_from))]
fn step(rows: &[u16], q: usize, c: usize) -> usize
    requires { RowTable rows.now × Row q × (c < 21) }
    ensures { (state_of (result / 23) ≡ next (state_of (q / 23)) c) × Row result }
{
    usize::from(rows[q + 2 + c])
}

// Walks the rows, byte by byte.
fn walk(text: &[u8], symbols: &[u8; 256], rows: &[u16]) -> Result<(), Refusal>
    requires { SymbolTable symbols.now × RowTable rows.now }
    ensures { result ≡ refusal (syntax_rules text.now) }
{
    let mut q = 23;
    for (i, &b) in text.iter().enumerate() {
        if i == MOST_BYTES {
            return Err(Refusal(Reason::BenchSyntax, i));
        }
        let n = step(rows, q, symbol_of(symbols, b));
        if n == 0 {
            return Err(Refusal(Reason::BenchSyntax, i));
        }
        q = n;
    }
    if q < NO_END {
        return Ok(());
    }
    Err(Refusal(Reason::BenchSyntax, text.len()))
}

// In memory for the rows.
fn check_in(text: &[u8], rows: &mut [u16]) -> Result<(), Refusal>
    requires { length rows.old ≡ 1817 }
    ensures { result ≡ refusal (syntax_rules text.now) }
{
    let symbols = symbol_table();
    let states = state_table();
    put_rows(&states, rows);
    walk(text, &symbols, rows)
}

// Whether a text is right in syntax, or where it goes wrong. The tables are made once, before the first byte; of a state the walk keeps the
// beginning of its row, so that a step is one sum and one look.
pub fn check_text(text: &[u8]) -> Result<(), Refusal>
    ensures { result ≡ refusal (syntax_rules text.now) }
{
    let mut rows = [0u16; 1817];
    check_in(text, &mut rows)
}
