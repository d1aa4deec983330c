// Names and their definitions: a table of the library's own finds them; refusal 15.
#![tactic(auto)]

ghost use Rattle.std.specs.Prelude.{◌≡◌, ◌+◌, ◌*◌, ◌-◌, ◌<◌, ◌%◌, ltb, length, get_or, unwrap_or};
ghost use Rattle.ground.specs.Choose.{choose};
ghost use Rattle.answers.specs.declared.Reason.TheVariants.{BenchName};
ghost use Rattle.words.specs.Words.{word_at};
ghost use Rattle.names.specs.Names.{definition};
ghost use Rattle.names.specs.Owed.{Hash, Table, EnterReady, EnterDone, linked, LookUpReady, LookUpDone, ResolveReady, ResolveDone};

use answers::{Reason, Refusal};
use ground::narrow;
use words::{byte, is_word, same_word};

// ---- the table

fn mix(h: usize, b: usize) -> usize
    requires { (h < 8192) × (b < 256) }
    ensures { (result ≡ (h * 131 + b) % 8192) × (result < 8192) }
{
    (h * 131 + b) % 8192
}

// The hash of the word at a byte, which ends where its bytes say so.
fn hash(text: &[u8], at: usize) -> usize
    ensures { Hash text.now at result }
{
    let mut x = at;
    let mut h = 0;
    while is_word(byte(text, x)) {
        h = mix(h, usize::from(byte(text, x)));
        x += 1;
    }
    h
}

// The number of a name's definition among the first n. The caller has the name's hash. A `while`, since the definitions of one hash are linked:
// a link is one more than the number of the definition before, or 0.
fn find(
    text: &[u8],
    defs: &[u16],
    head: &[u16],
    next: &[u16],
    n: usize,
    h: usize,
    at: usize,
) -> Option<usize>
    requires { Table text.now defs.now head.now next.now n × Hash text.now at h }
    ensures { result ≡ linked (definition text.now defs.now n (word_at text.now at)) }
{
    let mut link = usize::from(head[h]);
    'walk: while 0 < link {
        let d = link - 1;
        if same_word(text, usize::from(defs[d]), at) {
            return Some(d);
        }
        link = usize::from(next[d]);
    }
    None
}

// Definition n, of this hash, joins the table.
fn add(text: &[u8], defs: &[u16], head: &mut [u16], next: &mut [u16], n: usize, h: usize)
    requires { Table text.now defs.now head.old next.old n × (n < length defs.now) × Hash text.now (get_or defs.now n 0) h }
    ensures { Table text.now defs.now head.new next.new (n + 1) }
{
    next[n] = head[h];
    head[h] = narrow(n + 1);
}

// All definitions join the table. The lowest byte of a second definition, or 65,535.
fn enter(text: &[u8], defs: &[u16], head: &mut [u16], next: &mut [u16]) -> usize
    requires { EnterReady text.now defs.now head.old next.old }
    ensures { EnterDone text.now defs.now head.new next.new result }
{
    let mut low = 65535;
    for (n, &def) in defs.iter().enumerate() {
        let at = usize::from(def);
        let h = hash(text, at);
        let found = find(text, defs, head, next, n, h, at);
        add(text, defs, head, next, n, h);
        if found.is_some() {
            low = at.min(low);
        }
    }
    low
}

// ---- looking names up

// The number of what a definition defines. Where a name has none, refusal 15 comes before anyone looks at the number.
fn number_of(numbers: &[u16], found: Option<usize>) -> u16
    ensures { result ≡ get_or numbers.now (unwrap_or found 0) 0 }
{
    numbers.get(found.unwrap_or(0)).copied().unwrap_or(0)
}

// The numbers of the names at some places. The lowest byte of one that is defined nowhere, or `low` if that is lower.
fn look_up(
    text: &[u8],
    defs: &[u16],
    numbers: &[u16],
    head: &[u16],
    next: &[u16],
    names: &[u16],
    out: &mut [u16],
    low: usize,
) -> usize
    requires { LookUpReady text.now defs.now head.now next.now names.now out.old low }
    ensures { LookUpDone text.now defs.now numbers.now names.now out.new low result }
{
    let mut lowest = low;
    for (u, &name) in names.iter().enumerate() {
        let at = usize::from(name);
        let h = hash(text, at);
        let found = find(text, defs, head, next, defs.len(), h, at);
        out[u] = number_of(numbers, found);
        if found.is_none() {
            lowest = at.min(lowest);
        }
    }
    lowest
}

// Refusal 15, by the lowest byte of a wrong name.
fn rule_names(low: usize) -> Result<(), Refusal>
    ensures { result ≡ choose (ltb low 65535) (Err (BenchName, low)) (Ok tt) }
{
    if low < 65535 {
        return Err(Refusal(Reason::BenchName, low));
    }
    Ok(())
}

// The numbers of all names that are used, and what refusal 15 says, by an empty table that is lent.
fn resolve_by(
    text: &[u8],
    defs: &[u16],
    numbers: &[u16],
    outs: &[u16],
    firsts: &[u16],
    seconds: &[u16],
    o: &mut [u16],
    a: &mut [u16],
    b: &mut [u16],
    head: &mut [u16],
    next: &mut [u16],
) -> Result<(), Refusal>
    requires { ResolveReady text.now defs.now outs.now firsts.now seconds.now o.old a.old b.old × EnterReady text.now defs.now head.old next.old }
    ensures { ResolveDone text.now defs.now numbers.now outs.now firsts.now seconds.now
        o.new a.new b.new result }
{
    let twice = enter(text, defs, head, next);
    let out = look_up(text, defs, numbers, head, next, outs, o, twice);
    let first = look_up(text, defs, numbers, head, next, firsts, a, out);
    let second = look_up(text, defs, numbers, head, next, seconds, b, first);
    rule_names(second)
}

// The numbers of all names that are used, and what refusal 15 says.
pub fn resolve(
    text: &[u8],
    defs: &[u16],
    numbers: &[u16],
    outs: &[u16],
    firsts: &[u16],
    seconds: &[u16],
    o: &mut [u16],
    a: &mut [u16],
    b: &mut [u16],
) -> Result<(), Refusal>
    requires { ResolveReady text.now defs.now outs.now firsts.now seconds.now o.old a.old b.old }
    ensures { ResolveDone text.now defs.now numbers.now outs.now firsts.now seconds.now
        o.new a.new b.new result }
{
    let mut head = [0u16; 8192];
    let mut next = [0u16; 8192];
    let d = defs.len();
    resolve_by(
        text,
        defs,
        numbers,
        outs,
        firsts,
        seconds,
        o,
        a,
        b,
        &mut head,
        &mut next[..d],
    )
}
