// The audit of a kept list: whether another tool's marks lose a need of the table or keep a pattern that can be spared.
#![tactic(auto)]

ghost use Rattle.std.specs.Prelude.{◌≡◌, ◌+◌, ◌*◌, ◌≤◌, length};
ghost use Rattle.tables.specs.Entries.{entries_of};
ghost use Rattle.tables.specs.Table.{Sized};
ghost use Rattle.tallies.specs.Owed.{Cleared};
ghost use Rattle.findings.specs.Findings.{finding_of};
ghost use Rattle.inspect.specs.Owed.{MarksReady};
ghost use Rattle.audit.specs.Promise.{Audits};

use answers::Refusal;
use findings::Finding;
use inspect::{find, first_bad};
use tables::check_marks;
use tallies::tally;

// Of marks that are all 0 or 1, over counts that are all 0: tallies the kept patterns and the dropped ones, and looks.
fn tally_both(
    kept: &mut [u8],
    dropped: &mut [u8],
    table: &[u8],
    faults: usize,
    patterns: usize,
    marks: &[u8],
) -> Finding
    requires cleared { Cleared kept.old faults × Cleared dropped.old faults }
    requires sized { Sized faults patterns (length table.now) }
    requires marks_ready { MarksReady patterns marks.now }
    ensures { result ≡ finding_of (entries_of faults table.now) faults patterns marks.now }
{
    let mut kept_seen = [0u8; 256];
    let mut dropped_seen = [0u8; 256];
    tally(kept, &mut kept_seen, table, faults, patterns, marks, 1);
    tally(
        dropped,
        &mut dropped_seen,
        table,
        faults,
        patterns,
        marks,
        0,
    );
    find(
        kept,
        &kept_seen,
        dropped,
        &dropped_seen,
        table,
        faults,
        patterns,
        marks,
    )
}

// The same, with memory for twice so many counts: a row of 256 for the pairs of each fault, and one for the faults.
fn find_in<const ROOM: usize>(faults: usize, patterns: usize, table: &[u8], marks: &[u8]) -> Finding
    requires room { (256 * faults + faults ≤ ROOM) × (ROOM ≤ 65792) }
    requires sized { Sized faults patterns (length table.now) }
    requires marks_ready { MarksReady patterns marks.now }
    ensures { result ≡ finding_of (entries_of faults table.now) faults patterns marks.now }
{
    let mut kept = [0u8; ROOM];
    let mut dropped = [0u8; ROOM];
    tally_both(&mut kept, &mut dropped, table, faults, patterns, marks)
}

// Of a table and marks that keep their rules. Memory for all rows takes longer to clear than a small table to audit.
fn audit_table(faults: usize, patterns: usize, table: &[u8], marks: &[u8]) -> Finding
    requires sized { Sized faults patterns (length table.now) }
    requires marks_len { length marks.now ≡ patterns }
    ensures { result ≡ finding_of (entries_of faults table.now) faults patterns marks.now }
{
    let bad = first_bad(marks);
    if bad < patterns {
        return Finding::BadMark(bad);
    }
    if faults < 16 {
        find_in::<4096>(faults, patterns, table, marks)
    } else {
        find_in::<65792>(faults, patterns, table, marks)
    }
}

// The audit.
pub fn audit(
    fault_count: u64,
    pattern_count: u64,
    table: &[u8],
    marks: &[u8],
) -> Result<Finding, Refusal>
    ensures { Audits fault_count pattern_count table.now marks.now result }
{
    check_marks(fault_count, pattern_count, table, marks)?;
    Ok(audit_table(fault_count as usize, pattern_count as usize, table, marks))
}
