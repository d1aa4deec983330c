// Sets the trees of free lines for a node of head lines, from the highest line down and without going back.
#![tactic(auto)]

ghost use Rattle.std.specs.Prelude.{◌≡◌, ◌≤◌, ◌<◌, length, get_or};
ghost use Rattle.ground.specs.Lists.{collect, table};
ghost use Rattle.gates.specs.Gate.{pins_of};
ghost use Rattle.circuit.specs.Record.{kind_at, is_input};
ghost use Rattle.reads.specs.Owed.{Sourced};
ghost use Rattle.heads.specs.Heads.{heads_of};
ghost use Rattle.heads.specs.Marks.{Marked};
ghost use Rattle.trees.specs.Need.{need_of};
ghost use Rattle.trees.specs.Setting.{put_pins, set_line, set_below, head_value, set_trees};
ghost use Rattle.setting.specs.Owed.{alone, both, forced_or, after_zero, selecting, HeadReady, head_or, InputReady, input_put, InputsReady, TreesReady};

use circuit::source;
use gates::pins;

// The pin of the first source.
const FIRST: usize = 1;

// The first source alone.
fn on_first(u: u8, s: usize) -> u8
    ensures { result ≡ alone u s }
{
    if s == FIRST { u } else { 2 }
}

// Both sources.
fn on_both(u: u8, s: usize) -> u8
    ensures { result ≡ both u s }
{
    if s <= 2 { u } else { 2 }
}

// A value that the first source alone can force is put on it, the other one on both.
fn on_first_or_both(forced: u8, u: u8, s: usize) -> u8
    ensures { result ≡ forced_or forced u s }
{
    if u == forced {
        on_first(u, s)
    } else {
        on_both(u, s)
    }
}

// The first source 0, and so the second u.
fn after_zero(u: u8, s: usize) -> u8
    ensures { result ≡ after_zero u s }
{
    match s {
        1 => 0,
        2 => u,
        _ => 2,
    }
}

// Select 0, and the first source.
fn on_selected(u: u8, s: usize) -> u8
    ensures { result ≡ selecting u s }
{
    match s {
        1 => u,
        3 => 0,
        _ => 2,
    }
}

// What pin s of a gate of this kind gets that is to have the value v.
fn need(kind: u8, v: u8, s: usize) -> u8
    requires { (1 ≤ s) × (s ≤ 3) }
    ensures { result ≡ need_of kind v s }
{
    if 1 < v {
        return 2;
    }
    match kind {
        1 => on_first(v, s),
        2 => on_first(1 - v, s),
        3 => on_first_or_both(0, v, s),
        4 => on_first_or_both(0, 1 - v, s),
        5 => on_first_or_both(1, v, s),
        6 => on_first_or_both(1, 1 - v, s),
        7 => after_zero(v, s),
        8 => after_zero(1 - v, s),
        9 => on_selected(v, s),
        _ => 2,
    }
}

// Line k, which is to have the value v, puts values on its sources.
fn put_pins(circuit: &[u8], k: usize, v: u8, want: &mut [u8])
    requires { Sourced circuit.now (length want.old) × (k < length want.old) }
    ensures { want.new ≡ put_pins circuit.now k v (pins_of (kind_at circuit.now k)) want.old }
{
    let kind = circuit[8 * k];
    for s in 0..pins(kind) {
        let i = source(circuit, k, s + 1);
        want[i] = need(kind, v, s + 1);
    }
}

// A free line puts values on its sources.
fn set_line(circuit: &[u8], marks: &[u8], k: usize, want: &mut [u8])
    requires { Sourced circuit.now (length want.old) × Marked circuit.now (length want.old) marks.now × (k < length want.old) }
    ensures { want.new ≡ set_line circuit.now (length want.old) k want.old }
{
    if marks[k] != 2 {
        put_pins(circuit, k, want[k], want);
    }
}

// All lines, the highest first.
fn set_below(circuit: &[u8], marks: &[u8], want: &mut [u8])
    requires { Sourced circuit.now (length want.old) × Marked circuit.now (length want.old) marks.now }
    ensures { want.new ≡ set_below circuit.now (length want.old) (length want.old) want.old }
{
    for k in (0..want.len()).rev() {
        set_line(circuit, marks, k, want);
    }
}

// What line k is to have at the start, where `used` head lines stand below it.
fn head_or(marks: &[u8], node: &[u8], k: usize, used: usize) -> u8
    requires { HeadReady marks.now node.now k used }
    ensures { result ≡ head_or marks.now node.now k used }
{
    if marks[k] == 1 { node[used] } else { 2 }
}

// The head lines get what the node says, the others X.
fn put_heads(circuit: &[u8], marks: &[u8], node: &[u8], want: &mut [u8])
    requires { Marked circuit.now (length want.old) marks.now × (length node.now ≡ heads_of circuit.now (length want.old)) }
    ensures { want.new ≡ table (head_value circuit.now (length want.old) node.now) (length want.old) }
{
    let mut used = 0;
    for (k, value) in want.iter_mut().enumerate() {
        *value = head_or(marks, node, k, used);
        used += usize::from(marks[k] == 1);
    }
}

// An input's value goes into the test, where `used` inputs stand below it.
fn put_input(circuit: &[u8], want: &[u8], k: usize, used: usize, test: &mut [u8])
    requires { InputReady circuit.now (length want.now) k used (length test.old) }
    ensures { test.new ≡ input_put circuit.now want.now k used test.old }
{
    if circuit[8 * k] == 0 {
        test[used] = want[k];
    }
}

// The values of the inputs, in line order.
fn take_inputs(circuit: &[u8], want: &[u8], test: &mut [u8])
    requires { InputsReady circuit.now (length want.now) (length test.old) }
    ensures { test.new ≡ collect (is_input circuit.now) (λ k. get_or want.now k 0) (length want.now) }
{
    let mut used = 0;
    for k in 0..want.len() {
        put_input(circuit, want, k, used, test);
        used += usize::from(circuit[8 * k] == 0);
    }
}

// Sets the trees for a node: the values of the inputs go into the test buffer. `want` is work memory, one byte a line.
pub fn set_trees(circuit: &[u8], marks: &[u8], node: &[u8], want: &mut [u8], test: &mut [u8])
    requires { TreesReady circuit.now marks.now (length node.now) (length want.old) (length test.old) }
    ensures { test.new ≡ set_trees circuit.now (length want.old) node.now }
{
    put_heads(circuit, marks, node, want);
    set_below(circuit, marks, want);
    take_inputs(circuit, want, test);
}
