// The tally of the patterns that have a given mark: the counts of those, and the faults that they fail.
#![tactic(auto)]

ghost use Rattle.std.specs.Prelude.{◌≡◌, length};
ghost use Rattle.counts.specs.Owed.{RowRoom, CellsRoom};
ghost use Rattle.tallies.specs.Tally.{with_mark, Tallied};
ghost use Rattle.tallies.specs.Owed.{TallyRoom, Zeros, PatternDone};

use counts::{count_pattern, see_pattern};

// Counts a pattern in and notes the faults that it fails, if it is of the set.
fn tally_pattern(
    counts: &mut [u8],
    seen: &mut [u8],
    table: &[u8],
    from: usize,
    faults: usize,
    in_set: bool,
)
    requires cells_room { CellsRoom counts.old table.now from faults }
    requires row_room { RowRoom seen.old 0 table.now from faults }
    ensures { PatternDone in_set table.now from faults counts.old seen.old counts.new seen.new }
{
    if in_set {
        count_pattern(counts, table, from, faults, true);
        see_pattern(seen, table, from, faults);
    }
}

// Tallies the patterns whose mark is `mark`, in memory that is all 0.
pub fn tally(
    counts: &mut [u8],
    seen: &mut [u8],
    table: &[u8],
    faults: usize,
    patterns: usize,
    marks: &[u8],
    mark: u8,
)
    requires tally_room { TallyRoom counts.old seen.old table.now faults patterns }
    requires zeros { Zeros counts.old × Zeros seen.old }
    requires marks_len { length marks.now ≡ patterns }
    ensures { Tallied table.now faults patterns (with_mark mark marks.now) counts.new seen.new }
{
    for p in 0..patterns {
        let from = p * faults;
        tally_pattern(counts, seen, table, from, faults, marks[p] == mark);
    }
}
