// Part 3, the compactor: which patterns of a table are kept.
#![tactic(auto)]

ghost use Rattle.std.specs.Prelude.{◌≡◌, ◌+◌, ◌*◌, ◌≤◌, length, replicate};
ghost use Rattle.tables.specs.Entries.{entries_of};
ghost use Rattle.tables.specs.Table.{Sized};
ghost use Rattle.needs.specs.Needs.{kept, compacted};
ghost use Rattle.tallies.specs.Tally.{Tallied};
ghost use Rattle.tallies.specs.Owed.{TallyRoom, Cleared};
ghost use Rattle.compact.specs.Promise.{Compacts};
ghost use Rattle.compact.specs.Owed.{TurnRoom, TurnReady, TurnDone};

use answers::Refusal;
use tables::check_marks;
use tallies::tally;

// A pattern's turn: it is dropped if the others still in the set meet every need.
fn turn(
    counts: &mut [u8],
    seen: &[u8],
    marks: &mut [u8],
    table: &[u8],
    faults: usize,
    patterns: usize,
    p: usize,
)
    requires tally_room { TallyRoom counts.old seen.now table.now faults patterns }
    requires turn_room { TurnRoom marks.old patterns p }
    requires turn_ready { TurnReady table.now faults patterns (p + 1) marks.old counts.old seen.now }
    ensures { TurnDone table.now faults patterns p marks.old marks.new counts.new seen.now }
{
    let from = p * faults;
    if counts::needed(counts, seen, table, from, faults) {
        return;
    }
    counts::count_pattern(counts, table, from, faults, false);
    marks[p] = 0;
}

// The turns of all patterns, from the last to the first.
fn drop_spare(
    counts: &mut [u8],
    seen: &[u8],
    marks: &mut [u8],
    table: &[u8],
    faults: usize,
    patterns: usize,
)
    requires tally_room { TallyRoom counts.old seen.now table.now faults patterns }
    requires marks_value { marks.old ≡ replicate patterns 1 }
    requires tallied { Tallied table.now faults patterns (kept marks.old) counts.old seen.now }
    ensures { marks.new ≡ compacted (entries_of faults table.now) faults patterns }
{
    for p in (0..patterns).rev() {
        turn(counts, seen, marks, table, faults, patterns, p);
    }
}

// Keeps all patterns, tallies them over counts that are all 0, and drops what can be spared.
fn mark_all(counts: &mut [u8], marks: &mut [u8], table: &[u8], faults: usize, patterns: usize)
    requires cleared { Cleared counts.old faults }
    requires sized { Sized faults patterns (length table.now) }
    requires marks_len { length marks.old ≡ patterns }
    ensures { marks.new ≡ compacted (entries_of faults table.now) faults patterns }
{
    marks.fill(1);
    let mut seen = [0u8; 256];
    tally(counts, &mut seen, table, faults, patterns, marks, 1);
    drop_spare(counts, &seen, marks, table, faults, patterns);
}

// The same, with memory for so many counts: a row of 256 for the pairs of each fault, and one for the faults.
fn mark_in<const ROOM: usize>(faults: usize, patterns: usize, table: &[u8], marks: &mut [u8])
    requires room { (256 * faults + faults ≤ ROOM) × (ROOM ≤ 65792) }
    requires sized { Sized faults patterns (length table.now) }
    requires marks_len { length marks.old ≡ patterns }
    ensures { marks.new ≡ compacted (entries_of faults table.now) faults patterns }
{
    let mut counts = [0u8; ROOM];
    mark_all(&mut counts, marks, table, faults, patterns);
}

// The marks of a table that keeps its rules. Memory for all rows takes longer to clear than a small table to compact.
fn mark_table(faults: usize, patterns: usize, table: &[u8], marks: &mut [u8])
    requires sized { Sized faults patterns (length table.now) }
    requires marks_len { length marks.old ≡ patterns }
    ensures { marks.new ≡ compacted (entries_of faults table.now) faults patterns }
{
    if faults < 16 {
        mark_in::<4096>(faults, patterns, table, marks);
    } else {
        mark_in::<65792>(faults, patterns, table, marks);
    }
}

// The compactor.
pub fn compact(
    fault_count: u64,
    pattern_count: u64,
    table: &[u8],
    marks: &mut [u8],
) -> Result<(), Refusal>
    ensures { Compacts fault_count pattern_count table.now marks.old result marks.new }
{
    check_marks(fault_count, pattern_count, table, marks)?;
    mark_table(fault_count as usize, pattern_count as usize, table, marks);
    Ok(())
}
