// Counts of patterns: for each pair of faults how many tell the two apart, for each fault how many fail it. They are bytes and go round
// at 256, so that many are done at once; a count of 1, by which a pattern is needed, is still told from every other.
#![tactic(auto)]

ghost use Rattle.std.specs.Prelude.{◌≡◌, ◌+◌, ◌*◌, ◌≤◌, ◌<◌, eqb, length};
ghost use Rattle.ground.specs.Choose.{one};
ghost use Rattle.ground.specs.Below.{any_below};
ghost use Rattle.counts.specs.Counted.{hit_row, hit_pair, hit};
ghost use Rattle.counts.specs.Owed.{Counts, CellsDone, RowRoom, CellsRoom, SeeDone, Notes, sole_of, sole_in, sole_at, needed_of};

// ---- counting

// One cell, with x counted in or out.
fn count_cell(count: u8, x: u8, into: bool) -> u8
    ensures { Counts into x count result }
{
    if into {
        count.wrapping_add(x)
    } else {
        count.wrapping_sub(x)
    }
}

// Counts a pattern in or out of a row, where the fault's entry is `want`.
fn count_row(
    counts: &mut [u8],
    at: usize,
    table: &[u8],
    from: usize,
    faults: usize,
    want: u8,
    into: bool,
)
    requires { RowRoom counts.old at table.now from faults }
    ensures { CellsDone into (hit_row table.now from want at faults) counts.old counts.new }
{
    for f in 0..faults {
        let x = u8::from(table[from + f] == want);
        counts[at + f] = count_cell(counts[at + f], x, into);
    }
}

// The row of fault g's pairs: where g passes it looks for fails, where g fails for passes, and unknown tells nothing.
fn count_pairs(counts: &mut [u8], table: &[u8], from: usize, g: usize, into: bool)
    requires g_in_bounds { 256 * g + g ≤ length counts.old }
    requires g_in_bounds_2 { from + g < length table.now }
    ensures { CellsDone into (λ k. hit_pair table.now from k g) counts.old counts.new }
{
    let e = table[from + g];
    if 1 < e {
        return;
    }
    count_row(counts, 256 * g, table, from, g, 1 - e, into);
}

// Counts a pattern in or out.
pub fn count_pattern(counts: &mut [u8], table: &[u8], from: usize, faults: usize, into: bool)
    requires { CellsRoom counts.old table.now from faults }
    ensures { CellsDone into (hit table.now from faults) counts.old counts.new }
{
    for g in 0..faults {
        count_pairs(counts, table, from, g, into);
    }
    count_row(counts, 256 * faults, table, from, faults, 1, into);
}

// Notes the faults that a pattern fails.
pub fn see_pattern(seen: &mut [u8], table: &[u8], from: usize, faults: usize)
    requires { RowRoom seen.old 0 table.now from faults }
    ensures { SeeDone table.now from faults seen.old seen.new }
{
    for f in 0..faults {
        seen[f] |= u8::from(table[from + f] == 1);
    }
}

// ---- deciding

// 1 where a pattern is the only one of its kind, else 0. What is seen is 1 or 0 itself.
fn sole(count: u8, seen: u8, entry: u8, want: u8) -> u8
    requires { seen ≤ 1 }
    ensures { result ≡ one (sole_of count seen entry want) }
{
    u8::from(count == 1) & seen & u8::from(entry == want)
}

// Whether it is at some place of a row, as 1 or 0: the whole row is gone through, so that several places are done at once.
fn sole_in(
    counts: &[u8],
    seen: &[u8],
    at: usize,
    table: &[u8],
    from: usize,
    faults: usize,
    want: u8,
) -> u8
    requires row_room { RowRoom counts.now at table.now from faults }
    requires notes { Notes seen.now faults }
    ensures { result ≡ one (any_below faults (sole_in counts.now seen.now at table.now from want)) }
{
    let mut r: u8 = 0;
    for f in 0..faults {
        r |= sole(counts[at + f], seen[f], table[from + f], want);
    }
    r
}

// Whether it is at some pair of a detected fault g with one before it.
fn sole_at(counts: &[u8], seen: &[u8], table: &[u8], from: usize, g: usize) -> bool
    requires g_in_bounds { 256 * g + g ≤ length counts.now }
    requires notes { Notes seen.now (g + 1) }
    requires g_in_bounds_2 { from + g < length table.now }
    ensures { result ≡ sole_at counts.now seen.now table.now from g }
{
    let entry = table[from + g];
    seen[g] == 1 && entry <= 1 && sole_in(counts, seen, 256 * g, table, from, g, 1 - entry) != 0
}

// Whether the counted patterns, without this one of them, would lack something.
pub fn needed(counts: &[u8], seen: &[u8], table: &[u8], from: usize, faults: usize) -> bool
    requires cells_room { CellsRoom counts.now table.now from faults }
    requires notes { Notes seen.now faults }
    ensures { result ≡ needed_of counts.now seen.now table.now from faults }
{
    sole_in(counts, seen, 256 * faults, table, from, faults, 1) != 0
        || (0..faults).any(|g| sole_at(counts, seen, table, from, g))
}
