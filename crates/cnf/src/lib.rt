// Clauses as signed words: what they mean to a solver, the clauses of a gate, and the writer of a gate's clauses.
#![tactic(auto)]

ghost use Rattle.std.specs.Prelude.{◌≡◌, ◌+◌, ◌≤◌, ◌<◌, ℤ, neg_ℤ, length};
ghost use Rattle.gates.specs.Gate.{last_kind, selector};
ghost use Rattle.cnf.specs.Table.{clause_table, sites};
ghost use Rattle.ground.specs.Put.{Put};
ghost use Rattle.cnf.specs.Owed.{Variable, signed, closed, buffer_words, and_words, xor_words, by_shape, shape_words, is_one_of, gate_words, GateClausesReady, Takes};

// What some clauses take: words, the closing 0s included, and clauses.
#[derive(Clone, Copy)]
pub struct Size {
    pub words: usize,
    pub clauses: usize,
}

// Variable v as a literal, and its negation.
pub fn plus(v: usize) -> i32
    requires { Variable v }
    ensures { result ≡ ℤ.pos v }
{
    v as i32
}

pub fn minus(v: usize) -> i32
    requires { Variable v }
    ensures { result ≡ neg_ℤ (ℤ.pos v) }
{
    -(v as i32)
}

fn literal(v: usize, negated: bool) -> i32
    requires { Variable v }
    ensures { result ≡ signed negated v }
{
    if negated {
        return minus(v);
    }
    plus(v)
}

// A clause, closed by a 0. Each writer answers the place after what it wrote. The literals are stored one by one: a pair that is copied as a
// slice is laid into memory first, which took twice as long.
pub fn put_clause(words: &mut [i32], at: usize, literals: &[i32]) -> usize
    requires { at + length literals.now < length words.old }
    ensures { Put words.old words.new at (closed literals.now) result }
{
    for (i, literal) in literals.iter().enumerate() {
        words[at + i] = *literal;
    }
    let end = at + literals.len();
    words[end] = 0;
    end + 1
}

// y = a, y = a AND b, y = a XOR b. Each literal comes with its opposite.
fn put_buffer(words: &mut [i32], at: usize, y: i32, not_y: i32, a: i32, not_a: i32) -> usize
    requires { at + 6 ≤ length words.old }
    ensures { Put words.old words.new at (buffer_words y not_y a not_a) result }
{
    let next = put_clause(words, at, &[not_y, a]);
    put_clause(words, next, &[y, not_a])
}

fn put_and(
    words: &mut [i32],
    at: usize,
    y: i32,
    not_y: i32,
    a: i32,
    not_a: i32,
    b: i32,
    not_b: i32,
) -> usize
    requires { at + 10 ≤ length words.old }
    ensures { Put words.old words.new at (and_words y not_y a not_a b not_b) result }
{
    let second = put_clause(words, at, &[not_y, a]);
    let third = put_clause(words, second, &[not_y, b]);
    put_clause(words, third, &[y, not_a, not_b])
}

fn put_xor(
    words: &mut [i32],
    at: usize,
    y: i32,
    not_y: i32,
    a: i32,
    not_a: i32,
    b: i32,
    not_b: i32,
) -> usize
    requires { at + 16 ≤ length words.old }
    ensures { Put words.old words.new at (xor_words y not_y a not_a b not_b) result }
{
    let second = put_clause(words, at, &[not_y, a, b]);
    let third = put_clause(words, second, &[not_y, not_a, not_b]);
    let fourth = put_clause(words, third, &[y, not_a, b]);
    put_clause(words, fourth, &[y, a, not_b])
}

// The clauses of a gate with at most two pins, by its kind. Its literals come as they stand in those of a buffer, an AND or a XOR.
fn put_shape(
    words: &mut [i32],
    at: usize,
    kind: u8,
    y: i32,
    not_y: i32,
    a: i32,
    not_a: i32,
    b: i32,
    not_b: i32,
) -> usize
    requires { at + by_shape kind 6 10 16 ≤ length words.old }
    ensures { Put words.old words.new at (shape_words kind y not_y a not_a b not_b) result }
{
    if kind <= 2 {
        return put_buffer(words, at, y, not_y, a, not_a);
    }
    if kind <= 6 {
        return put_and(words, at, y, not_y, a, not_a, b, not_b);
    }
    put_xor(words, at, y, not_y, a, not_a, b, not_b)
}

// NAND, OR and XNOR negate the gate itself. Kinds come mixed, and `contains` is compiled without jumps, which `matches!` is not.
#[tactic(auto, unfolding(crate::specs::Owed::is_one_of))]
fn negates_gate(kind: u8) -> bool
    ensures { result ≡ is_one_of kind 4 5 8 }
{
    [4, 5, 8].contains(&kind)
}

// NOT, OR and NOR negate its pins.
#[tactic(auto, unfolding(crate::specs::Owed::is_one_of))]
fn negates_pins(kind: u8) -> bool
    ensures { result ≡ is_one_of kind 2 5 6 }
{
    [2, 5, 6].contains(&kind)
}

// The clauses of a selector: where its select s is 0 it is as its first source a, where s is 1 as its second, b.
#[tactic(auto, unfolding(crate::specs::Table::gate_clauses, crate::specs::Table::clause_table))]
pub fn put_selector(words: &mut [i32], at: usize, y: usize, a: usize, b: usize, s: usize) -> usize
    requires { GateClausesReady words.old at selector y a b s }
    ensures { Put words.old words.new at (gate_words selector (sites y a b s)) result }
{
    let own = plus(y);
    let not_own = minus(y);
    let select = plus(s);
    let not_select = minus(s);
    let second = put_clause(words, at, &[select, not_own, plus(a)]);
    let third = put_clause(words, second, &[select, own, minus(a)]);
    let fourth = put_clause(words, third, &[not_select, not_own, plus(b)]);
    put_clause(words, fourth, &[not_select, own, minus(b)])
}

// The clauses of a gate with at most two pins, by its kind, with variable y, whose pins read the variables a and b; what is at a pin that
// the kind lacks is in none of them. With its literals negated as the kind says, three shapes serve the eight kinds.
pub fn put_gate(words: &mut [i32], at: usize, kind: u8, y: usize, a: usize, b: usize) -> usize
    requires { (kind < selector) × GateClausesReady words.old at kind y a b b }
    ensures { Put words.old words.new at (gate_words kind (sites y a b b)) result }
{
    if kind == 0 {
        return at;
    }
    let own = negates_gate(kind);
    let pins = negates_pins(kind);
    let p = literal(y, own);
    let not_p = literal(y, !own);
    let q = literal(a, pins);
    let not_q = literal(a, !pins);
    let r = literal(b, pins);
    let not_r = literal(b, !pins);
    put_shape(words, at, kind, p, not_p, q, not_q, r, not_r)
}

// How many words and clauses a gate of this kind takes.
pub fn size_of(kind: u8) -> Size
    requires { kind ≤ last_kind }
    ensures { Takes (clause_table kind) result }
{
    if kind == 0 {
        return Size {
            words: 0,
            clauses: 0,
        };
    }
    if kind <= 2 {
        return Size {
            words: 6,
            clauses: 2,
        };
    }
    if kind <= 6 {
        return Size {
            words: 10,
            clauses: 3,
        };
    }
    Size {
        words: 16,
        clauses: 4,
    }
}
