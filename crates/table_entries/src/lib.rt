// What C calls for tables, to make them and to read them, but for the names that C knows: these are in `entries`, of which the archive is made.
// The entries with lent memory look at the answer area first: with one of another size nothing is written at all.
#![tactic(auto)]

ghost use Rattle.answers.specs.Area.{Entered};
ghost use Rattle.table_entries.specs.Entries.{audit_numbers, DictionaryEntered, DictionaryLanesEntered, CompactEntered, SuspectsOpenEntered, SuspectsReportEntered, SuspectsMarksEntered};

use audit::audit;
use compact::compact;
use dictionary::dictionary;
use dictionary_lanes::dictionary_lanes;
use replies::{AREA, OTHER_SIZE, of_answer, report};
use suspect_areas::{open_area, read_marks, report_area};

pub fn enter_dictionary(
    circuit: &[u8],
    faults: &[u8],
    patterns: &[u8],
    table: &mut [u8],
    work: &mut [u8],
    answer: &mut [u8],
) -> u32
    ensures { DictionaryEntered circuit.now faults.now patterns.now
        table.old work.old answer.old result table.new work.new answer.new }
{
    if answer.len() != AREA {
        return OTHER_SIZE;
    }
    let v = dictionary(circuit, faults, patterns, table, work);
    report(of_answer(v), answer)
}

pub fn enter_dictionary_lanes(
    circuit: &[u8],
    faults: &[u8],
    patterns: &[u8],
    table: &mut [u8],
    work: &mut [u64],
    answer: &mut [u8],
) -> u32
    ensures { DictionaryLanesEntered circuit.now faults.now patterns.now
        table.old work.old answer.old result table.new work.new answer.new }
{
    if answer.len() != AREA {
        return OTHER_SIZE;
    }
    let v = dictionary_lanes(circuit, faults, patterns, table, work);
    report(of_answer(v), answer)
}

pub fn enter_compact(
    fault_count: u64,
    pattern_count: u64,
    table: &[u8],
    marks: &mut [u8],
    answer: &mut [u8],
) -> u32
    ensures { CompactEntered fault_count pattern_count table.now marks.old answer.old
        result marks.new answer.new }
{
    if answer.len() != AREA {
        return OTHER_SIZE;
    }
    let v = compact(fault_count, pattern_count, table, marks);
    report(of_answer(v), answer)
}

pub fn enter_audit(
    fault_count: u64,
    pattern_count: u64,
    table: &[u8],
    marks: &[u8],
    answer: &mut [u8],
) -> u32
    ensures { Entered answer.old (audit_numbers fault_count pattern_count table.now marks.now)
        result answer.new }
{
    let v = audit(fault_count, pattern_count, table, marks);
    report(of_answer(v), answer)
}

pub fn enter_suspects_open(
    fault_count: u64,
    pattern_count: u64,
    table: &[u8],
    state: &mut [u8],
    answer: &mut [u8],
) -> u32
    ensures { SuspectsOpenEntered fault_count pattern_count table.now state.old answer.old
        result state.new answer.new }
{
    if answer.len() != AREA {
        return OTHER_SIZE;
    }
    let v = open_area(fault_count, pattern_count, table, state);
    report(of_answer(v), answer)
}

pub fn enter_suspects_report(
    fault_count: u64,
    pattern_count: u64,
    table: &[u8],
    pattern: u64,
    failed: u64,
    state: &mut [u8],
    answer: &mut [u8],
) -> u32
    ensures { SuspectsReportEntered fault_count pattern_count table.now pattern failed state.old answer.old
        result state.new answer.new }
{
    if answer.len() != AREA {
        return OTHER_SIZE;
    }
    let v = report_area(
        fault_count,
        pattern_count,
        table,
        pattern,
        failed != 0,
        state,
    );
    report(of_answer(v), answer)
}

pub fn enter_suspects_marks(state: &[u8], marks: &mut [u8], answer: &mut [u8]) -> u32
    ensures { SuspectsMarksEntered state.now marks.old answer.old
        result marks.new answer.new }
{
    if answer.len() != AREA {
        return OTHER_SIZE;
    }
    let v = read_marks(state, marks);
    report(of_answer(v), answer)
}
