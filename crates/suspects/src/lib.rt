// The suspects at a tester's bench: which faults remain after its reports.
#![tactic(auto)]

ghost use Rattle.std.specs.Prelude.{◌≡◌, ◌<◌, length};
ghost use Rattle.answers.specs.Rules.{refusal};
ghost use Rattle.tables.specs.Table.{Sized};
ghost use Rattle.reports.specs.Reports.{report_of};
ghost use Rattle.suspects.specs.State.{opened_ok, Opened};
ghost use Rattle.suspects.specs.Promise.{open_state, narrowed_state, pattern_rules, given_rules, report_rules, Opens, Reports};

use answers::{Reason, Refusal};
use reports::{count_marks, entry_against, mark_all, narrow, some_no_mark};
use tables::{check_table, in_range};

// The state: a mark for each fault, 1 where it remains, the counts as at opening, and how many remain.
#[derive(Clone, Copy)]
pub struct Suspects {
    pub marks: [u8; 256],
    pub faults: u64,
    pub patterns: u64,
    pub remaining: u64,
}

// ---- opening

// The state in which all faults remain.
pub fn all_remain(fault_count: u64, pattern_count: u64) -> Suspects
    requires { fault_count < 257 }
    ensures { result ≡ open_state fault_count pattern_count }
{
    let mut marks = [0u8; 256];
    mark_all(fault_count as usize, &mut marks);
    Suspects {
        marks,
        faults: fault_count,
        patterns: pattern_count,
        remaining: fault_count,
    }
}

// Opens a state, whatever it holds.
pub fn open(
    state: &mut Suspects,
    fault_count: u64,
    pattern_count: u64,
    table: &[u8],
) -> Result<u64, Refusal>
    ensures { Opens fault_count pattern_count table.now state.old result state.new }
{
    check_table(fault_count, pattern_count, table)?;
    *state = all_remain(fault_count, pattern_count);
    Ok(fault_count)
}

// ---- a report

// Whether a state is one that opening and reports leave.
pub fn is_opened(state: Suspects) -> bool
    ensures { result ≡ opened_ok state }
{
    if !in_range(state.faults) {
        return false;
    }
    if !in_range(state.patterns) {
        return false;
    }
    let marks = state.marks;
    let n = state.faults as usize;
    if some_no_mark(&marks, n) {
        return false;
    }
    state.remaining == count_marks(&marks, n) as u64
}

// Refusal 17: there is such a pattern.
fn check_pattern(pattern_count: u64, pattern: u64) -> Result<(), Refusal>
    ensures { result ≡ refusal (pattern_rules pattern_count pattern) }
{
    if pattern < pattern_count {
        return Ok(());
    }
    Err(Refusal(Reason::NoPattern, 0))
}

// What is asked of what is lent with a report: refusals 12 and 13, then 17.
fn check_given(
    fault_count: u64,
    pattern_count: u64,
    table: &[u8],
    pattern: u64,
) -> Result<(), Refusal>
    ensures { result ≡ refusal (given_rules fault_count pattern_count table.now pattern) }
{
    check_table(fault_count, pattern_count, table)?;
    check_pattern(pattern_count, pattern)
}

// All refusals of a report to an opened state: 12 for counts other than at opening, then those of what is lent.
fn check_report(
    state: Suspects,
    fault_count: u64,
    pattern_count: u64,
    table: &[u8],
    pattern: u64,
) -> Result<(), Refusal>
    requires { Opened state }
    ensures { result ≡ refusal (report_rules state fault_count pattern_count table.now pattern) }
{
    if fault_count != state.faults {
        return Err(Refusal(Reason::TableSize, 0));
    }
    let other_patterns = pattern_count != state.patterns;
    if other_patterns {
        return Err(Refusal(Reason::TableSize, 0));
    }
    check_given(fault_count, pattern_count, table, pattern)
}

// The state after a report that is not refused.
fn narrow_state(state: Suspects, table: &[u8], pattern: u64, failed: bool) -> Suspects
    requires { Opened state × Sized state.faults state.patterns (length table.now) × (pattern < state.patterns) }
    ensures { result ≡ narrowed_state state (report_of state.faults state.patterns table.now pattern failed) }
{
    let n = state.faults as usize;
    let at = pattern as usize * n;
    let to = at + n;
    let before = state.marks;
    let mut marks = [0u8; 256];
    narrow(&before, &table[at..to], entry_against(failed), &mut marks);
    Suspects {
        marks,
        faults: state.faults,
        patterns: state.patterns,
        remaining: count_marks(&marks, n) as u64,
    }
}

// Reports to an opened state that a pattern failed, or passed.
pub fn report_to_opened(
    state: &mut Suspects,
    fault_count: u64,
    pattern_count: u64,
    table: &[u8],
    pattern: u64,
    failed: bool,
) -> Result<u64, Refusal>
    requires { Opened state.old }
    ensures { Reports state.old (report_of fault_count pattern_count table.now pattern failed) result state.new }
{
    check_report(*state, fault_count, pattern_count, table, pattern)?;
    *state = narrow_state(*state, table, pattern, failed);
    Ok(state.remaining)
}

// The same to any state: refusal 22 where it is not opened.
pub fn report(
    state: &mut Suspects,
    fault_count: u64,
    pattern_count: u64,
    table: &[u8],
    pattern: u64,
    failed: bool,
) -> Result<u64, Refusal>
    ensures { Reports state.old (report_of fault_count pattern_count table.now pattern failed) result state.new }
{
    if !is_opened(*state) {
        return Err(Refusal(Reason::NotOpened, 0));
    }
    report_to_opened(state, fault_count, pattern_count, table, pattern, failed)
}

// ---- the state by value

// An answer, and the state after it.
#[derive(Clone, Copy)]
pub struct After {
    pub state: Suspects,
    pub answer: Result<u64, Refusal>,
}

// Opens a state, whatever it holds.
pub fn opened(state: Suspects, fault_count: u64, pattern_count: u64, table: &[u8]) -> After
    ensures { Opens fault_count pattern_count table.now state result.answer result.state }
{
    let mut after = state;
    let answer = open(&mut after, fault_count, pattern_count, table);
    After {
        state: after,
        answer,
    }
}

// Reports to an opened state that a pattern failed, or passed.
pub fn reported_to(
    state: Suspects,
    fault_count: u64,
    pattern_count: u64,
    table: &[u8],
    pattern: u64,
    failed: bool,
) -> After
    requires { Opened state }
    ensures { Reports state (report_of fault_count pattern_count table.now pattern failed) result.answer result.state }
{
    let mut after = state;
    let answer = report_to_opened(
        &mut after,
        fault_count,
        pattern_count,
        table,
        pattern,
        failed,
    );
    After {
        state: after,
        answer,
    }
}

// The same to any state: refusal 22 where it is not opened.
pub fn reported(
    state: Suspects,
    fault_count: u64,
    pattern_count: u64,
    table: &[u8],
    pattern: u64,
    failed: bool,
) -> After
    ensures { Reports state (report_of fault_count pattern_count table.now pattern failed) result.answer result.state }
{
    let mut after = state;
    let answer = report(
        &mut after,
        fault_count,
        pattern_count,
        table,
        pattern,
        failed,
    );
    After {
        state: after,
        answer,
    }
}
