// What is wrong with a kept list, by two tallies: that of the patterns it keeps, and that of those it drops. A need is lost where a dropped
// pattern counts and no kept one does.
#![tactic(auto)]

ghost use Rattle.std.specs.Prelude.{◌≡◌, ◌+◌, ◌≤◌, ◌<◌, length};
ghost use Rattle.tables.specs.Entries.{entries_of};
ghost use Rattle.findings.specs.Findings.{bad_mark, spare, first_where, place_where, finding_of};
ghost use Rattle.inspect.specs.Owed.{lost_in, pair_in, pair_where, PairsRoom, SpareReady, FindReady};

use counts::needed;
use findings::Finding;

// The place of the first mark other than 0 or 1, or the number of marks.
pub fn first_bad(marks: &[u8]) -> usize
    ensures { result ≡ first_where (length marks.now) (bad_mark marks.now) }
{
    marks
        .iter()
        .position(|&mark| 1 < mark)
        .unwrap_or(marks.len())
}

// ---- lost faults

// Whether a dropped pattern fails the fault and no kept one.
fn is_lost(kept: &[u8], dropped: &[u8], f: usize) -> bool
    requires { (f < length kept.now) × (f < length dropped.now) }
    ensures { result ≡ lost_in kept.now dropped.now f }
{
    dropped[f] == 1 && kept[f] != 1
}

// The lowest fault that is lost.
fn first_lost(kept: &[u8], dropped: &[u8], faults: usize) -> Option<usize>
    requires { (faults ≤ length kept.now) × (faults ≤ length dropped.now) }
    ensures { result ≡ place_where faults (lost_in kept.now dropped.now) }
{
    (0..faults).find(|&f| is_lost(kept, dropped, f))
}

// ---- lost pairs

// Whether a dropped pattern tells f and the higher fault g apart and no kept one, where kept ones detect both. Counts go round at 256; but one
// of 256 says that all patterns are kept, and then no dropped one counts, or that all are dropped, and then none of the kept detects f.
fn is_lost_pair(kept: &[u8], dropped: &[u8], seen: &[u8], f: usize, g: usize) -> bool
    requires { PairsRoom kept.now dropped.now seen.now (g + 1) × (f < g) }
    ensures { result ≡ pair_in kept.now dropped.now seen.now f g }
{
    let pair = 256 * g + f;
    seen[f] == 1 && seen[g] == 1 && kept[pair] == 0 && dropped[pair] != 0
}

// The lowest fault with which f makes a lost pair, as its lower one.
fn lost_with(kept: &[u8], dropped: &[u8], seen: &[u8], faults: usize, f: usize) -> Option<usize>
    requires { PairsRoom kept.now dropped.now seen.now faults × (f < faults) }
    ensures { result ≡ place_where faults (pair_in kept.now dropped.now seen.now f) }
{
    (f + 1..faults).find(|&g| is_lost_pair(kept, dropped, seen, f, g))
}

// The lowest fault that is the lower one of a lost pair, and the lowest one with which it makes one.
fn first_paired(kept: &[u8], dropped: &[u8], seen: &[u8], faults: usize) -> Option<(usize, usize)>
    requires { PairsRoom kept.now dropped.now seen.now faults }
    ensures { result ≡ pair_where faults (pair_in kept.now dropped.now seen.now) }
{
    for lower in 0..faults {
        if let Some(higher) = lost_with(kept, dropped, seen, faults, lower) {
            return Some((lower, higher));
        }
    }
    None
}

// ---- spare patterns

// Whether a pattern is kept and can be spared, where every need is met.
fn is_spare(
    counts: &[u8],
    seen: &[u8],
    table: &[u8],
    faults: usize,
    patterns: usize,
    marks: &[u8],
    p: usize,
) -> bool
    requires { SpareReady table.now faults patterns marks.now counts.now seen.now × (p < patterns) }
    ensures { result ≡ spare (entries_of faults table.now) faults patterns marks.now p }
{
    marks[p] == 1 && !needed(counts, seen, table, p * faults, faults)
}

// The lowest kept pattern that can be spared.
fn first_spare(
    counts: &[u8],
    seen: &[u8],
    table: &[u8],
    faults: usize,
    patterns: usize,
    marks: &[u8],
) -> Option<usize>
    requires { SpareReady table.now faults patterns marks.now counts.now seen.now }
    ensures { result ≡ place_where patterns (spare (entries_of faults table.now) faults patterns marks.now) }
{
    (0..patterns).find(|&p| is_spare(counts, seen, table, faults, patterns, marks, p))
}

// ---- in order

// What two tallies show of marks that are all 0 or 1.
pub fn find(
    kept_counts: &[u8],
    kept_seen: &[u8],
    dropped_counts: &[u8],
    dropped_seen: &[u8],
    table: &[u8],
    faults: usize,
    patterns: usize,
    marks: &[u8],
) -> Finding
    requires { FindReady table.now faults patterns marks.now kept_counts.now kept_seen.now dropped_counts.now dropped_seen.now }
    ensures { result ≡ finding_of (entries_of faults table.now) faults patterns marks.now }
{
    if let Some(fault) = first_lost(kept_seen, dropped_seen, faults) {
        return Finding::LostFault(fault);
    }
    if let Some((lower, higher)) = first_paired(kept_counts, dropped_counts, kept_seen, faults) {
        return Finding::LostPair(lower, higher);
    }
    if let Some(pattern) = first_spare(kept_counts, kept_seen, table, faults, patterns, marks) {
        return Finding::SparePattern(pattern);
    }
    Finding::Sound
}
