// The suspects in an area of bytes, as C holds them: opened, reported to and read where it stands.
#![tactic(auto)]

ghost use Rattle.std.specs.Prelude.{◌≡◌, ◌≤◌, length, take};
ghost use Rattle.answers.specs.Rules.{refusal};
ghost use Rattle.answers.specs.Area.{area_of};
ghost use Rattle.reports.specs.Reports.{report_of};
ghost use Rattle.suspects.specs.State.{Opened};
ghost use Rattle.suspect_areas.specs.Bytes.{numbers_of, bytes_of, state_in, begins_with, held_ok};
ghost use Rattle.suspect_areas.specs.Promise.{size_rules, held_area_rules, area_rules, open_area_rules, room_rules, marks_area_rules, OpensArea, ReportsArea, ReadsMarks};

use answers::{Reason, Refusal, put_numbers};
use little::pair_at;
use suspects::{Suspects, all_remain, is_opened, report_to_opened};
use tables::check_table;

// How many bytes a state has.
pub const SIZE: usize = 288;

// How many faults remain by the marks that were read, and how many faults and patterns there are.
#[derive(Clone, Copy, Debug, PartialEq, Eq)]
pub struct Marked {
    pub remaining: u64,
    pub faults: u64,
    pub patterns: u64,
}

// ---- a state and its bytes

// The first 32 bytes of a state: its counts, the size of their table, and how many remain.
fn put_front(state: Suspects, front: &mut [u8])
    requires { Opened state × (length front.old ≡ 32) }
    ensures { front.new ≡ area_of (numbers_of state) }
{
    put_numbers(
        front,
        state.faults,
        state.patterns,
        state.faults * state.patterns,
        state.remaining,
    );
}

// A state, as bytes.
fn put_state(state: Suspects, area: &mut [u8])
    requires { Opened state × (length area.old ≡ 288) }
    ensures { area.new ≡ bytes_of state }
{
    put_front(state, &mut area[..32]);
    let marks = state.marks;
    area[32..].copy_from_slice(&marks);
}

// The state that bytes say, opened or not.
fn state_in(area: &[u8]) -> Suspects
    requires { length area.now ≡ 288 }
    ensures { result ≡ state_in area.now }
{
    let mut marks = [0u8; 256];
    marks.copy_from_slice(&area[32..]);
    Suspects {
        marks,
        faults: pair_at(area, 0) as u64,
        patterns: pair_at(area, 8) as u64,
        remaining: pair_at(area, 24) as u64,
    }
}

// Whether the bytes a begin with b.
fn begins(a: &[u8], b: &[u8]) -> bool
    requires { length b.now ≤ length a.now }
    ensures { result ≡ begins_with a.now b.now }
{
    for i in 0..b.len() {
        if a[i] != b[i] {
            return false;
        }
    }
    true
}

// Whether an area of its size holds an opened state.
fn holds_state(area: &[u8]) -> bool
    requires { length area.now ≡ 288 }
    ensures { result ≡ held_ok area.now }
{
    let state = state_in(area);
    if !is_opened(state) {
        return false;
    }
    let mut front = [0u8; 32];
    put_front(state, &mut front);
    begins(area, &front)
}

// ---- what is asked of the area

// Refusal 10: its size.
fn check_size(area: &[u8]) -> Result<(), Refusal>
    ensures { result ≡ refusal (size_rules area.now) }
{
    if area.len() != SIZE {
        return Err(Refusal(Reason::BufferSize, 0));
    }
    Ok(())
}

// All refusals of an opening: 10, then those of the table.
fn check_opening(
    fault_count: u64,
    pattern_count: u64,
    table: &[u8],
    area: &[u8],
) -> Result<(), Refusal>
    ensures { result ≡ refusal (open_area_rules area.now fault_count pattern_count table.now) }
{
    check_size(area)?;
    check_table(fault_count, pattern_count, table)
}

// Refusal 22, of an area of its size: it holds an opened state.
fn check_held(area: &[u8]) -> Result<(), Refusal>
    requires { length area.now ≡ 288 }
    ensures { result ≡ refusal (held_area_rules area.now) }
{
    if holds_state(area) {
        return Ok(());
    }
    Err(Refusal(Reason::NotOpened, 0))
}

// Refusal 10, then 22.
fn check_area(area: &[u8]) -> Result<(), Refusal>
    ensures { result ≡ refusal (area_rules area.now) }
{
    check_size(area)?;
    check_held(area)
}

// Refusal 10: one mark a fault.
fn check_room(state: Suspects, marks: &[u8]) -> Result<(), Refusal>
    ensures { result ≡ refusal (room_rules state marks.now) }
{
    if marks.len() as u64 != state.faults {
        return Err(Refusal(Reason::BufferSize, 0));
    }
    Ok(())
}

// ---- the parts

// Opens a state in an area, whatever it holds.
pub fn open_area(
    fault_count: u64,
    pattern_count: u64,
    table: &[u8],
    area: &mut [u8],
) -> Result<u64, Refusal>
    ensures { OpensArea fault_count pattern_count table.now area.old result area.new }
{
    check_opening(fault_count, pattern_count, table, area)?;
    put_state(all_remain(fault_count, pattern_count), area);
    Ok(fault_count)
}

// Reports to the state in an area that a pattern failed, or passed.
pub fn report_area(
    fault_count: u64,
    pattern_count: u64,
    table: &[u8],
    pattern: u64,
    failed: bool,
    area: &mut [u8],
) -> Result<u64, Refusal>
    ensures { ReportsArea area.old (report_of fault_count pattern_count table.now pattern failed) result area.new }
{
    check_area(area)?;
    let mut state = state_in(area);
    let remaining = report_to_opened(
        &mut state,
        fault_count,
        pattern_count,
        table,
        pattern,
        failed,
    )?;
    put_state(state, area);
    Ok(remaining)
}

// Of a state, the marks of the faults that there are.
fn put_marks(state: Suspects, marks: &mut [u8])
    requires { (length marks.old ≡ state.faults) × (state.faults ≤ length state.marks) }
    ensures { marks.new ≡ take state.faults state.marks }
{
    let all = state.marks;
    let n = marks.len();
    marks.copy_from_slice(&all[..n]);
}

// All refusals of reading the marks: those of the area, then 10 for marks that are not one for each fault.
fn check_reading(area: &[u8], marks: &[u8]) -> Result<(), Refusal>
    ensures { result ≡ refusal (marks_area_rules area.now marks.now) }
{
    check_area(area)?;
    check_room(state_in(area), marks)
}

// Reads the marks of the state in an area.
pub fn read_marks(area: &[u8], marks: &mut [u8]) -> Result<Marked, Refusal>
    ensures { ReadsMarks area.now marks.old result marks.new }
{
    check_reading(area, marks)?;
    let state = state_in(area);
    put_marks(state, marks);
    Ok(Marked {
        remaining: state.remaining,
        faults: state.faults,
        patterns: state.patterns,
    })
}
