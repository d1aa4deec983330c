// The gates: three values, 0, 1 and 2 for X, and the rule that gives a gate's value by its kind.
#![tactic(auto)]

ghost use Rattle.std.specs.Prelude.{◌≡◌, ◌≤◌};
ghost use Rattle.gates.specs.Gate.{pins_of, gate_of, at_pins};
ghost use Rattle.gates.specs.Words.{select_of};
ghost use Rattle.gates.specs.Owed.{SourcesSmall, block_of, digit_of};

// The one kind with three pins: two sources, and at pin 3 the select line.
pub const SELECTOR: u8 = 9;

// Kinds are 0, an input, to this one.
pub const LAST_KIND: u8 = SELECTOR;

// The value of a line that is neither 0 nor 1.
const X: u8 = 2;

// The last of the kinds with one pin.
const LAST_OF_ONE_PIN: u8 = 2;

// The sum of two X's.
const TWO_X: usize = 4;

// How many pins a kind has.
pub fn pins(kind: u8) -> usize
    ensures { result ≡ pins_of kind }
{
    if kind == 0 {
        return 0;
    }
    if kind <= LAST_OF_ONE_PIN {
        return 1;
    }
    if kind != SELECTOR {
        return 2;
    }
    3
}

// The table of the kinds with at most two pins. A kind has sixteen digits in four rows: its first pin chooses the row, its second the digit in it, each
// in the order 0, 1, X. 2 is X. A fourth row and a fourth digit in each, which are for X once more, make the way to a digit short.
fn block(kind: u8) -> u64
    ensures { result ≡ block_of kind }
{
    match kind {
        //     0    1    X    X    at the first pin
        //     01XX 01XX 01XX 01XX at the second
        0 => 0x2222_2222_2222_2222, // input, never used
        1 => 0x0000_1111_2222_2222, // buffer
        2 => 0x1111_0000_2222_2222, // NOT
        3 => 0x0000_0122_0222_0222, // AND
        4 => 0x1111_1022_1222_1222, // NAND
        5 => 0x0122_1111_2122_2122, // OR
        6 => 0x1022_0000_2022_2022, // NOR
        7 => 0x0122_1022_2222_2222, // XOR
        8 => 0x1022_0122_2222_2222, // XNOR
        _ => 0x2222_2222_2222_2222, // a kind without a block
    }
}

// The digit of a block in this row and place: the digits before it are shifted out at the left of the 64 bits, those after it at the right.
fn digit(block: u64, row: usize, place: usize) -> u8
    requires { (row ≤ 255) × (place ≤ 255) }
    ensures { result ≡ digit_of block row place }
{
    // four bits a digit, four digits a row; modulo 64, so that the shift has its bound whatever row and place are (docs/DECISIONS.md, 60)
    let before = (16 * row + 4 * place) % 64;
    (block << before >> 60) as u8
}

// The value of a selector by what its sources and its select see: where that is X, the value of both sources if they are the same. Chosen and not looked
// up (docs/DECISIONS.md, 110).
fn selected(first: u8, second: u8, select: u8) -> u8
    ensures { (first ≤ 2) × (second ≤ 2) → result ≡ select_of first second select }
{
    if select == 0 {
        return first;
    }
    if select == 1 {
        return second;
    }
    if first != second {
        return X;
    }
    first
}

// The value of a gate for a, b and c at its pins, where a and b are 0, 1 or X; numbers above 2 are not looked for, as simulation brings none. Which of
// these values is at a pin that the kind lacks makes no difference.
pub fn gate(kind: u8, a: u8, b: u8, c: u8) -> u8
    ensures { SourcesSmall kind a b → result ≡ gate_of kind (at_pins a b c) }
{
    let first = usize::from(a);
    let second = usize::from(b);
    // two X's, which alone have this sum, give X whatever the kind is; told first for circuits whose gates read the lines just below (docs/DECISIONS.md, 60)
    if first + second == TWO_X {
        return X;
    }
    // tested before the other kinds, so that those of at most two pins have no other test of their kind
    if kind < SELECTOR {
        return digit(block(kind), first, second);
    }
    if SELECTOR < kind {
        return X;
    }
    selected(a, b, c)
}
