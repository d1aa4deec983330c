// Tables of entries: their numbers, the refusals 12 and 13, and 10 of marks that are lent with one.
#![tactic(auto)]

ghost use Rattle.std.specs.Prelude.{◌≡◌};
ghost use Rattle.answers.specs.Rules.{refusal};
ghost use Rattle.tables.specs.Table.{in_range, sizes_ok, table_rules};
ghost use Rattle.tables.specs.Marks.{marks_rules, kept_rules};

use answers::{Reason, Refusal, first_big};

pub const PASS: u8 = 0;

pub const FAIL: u8 = 1;

pub const UNKNOWN: u8 = 2;

pub fn in_range(n: u64) -> bool
    ensures { result ≡ in_range n }
{
    1 <= n && n <= 256
}

// Whether both counts are in range and so many bytes are their product.
fn sizes_ok(fault_count: u64, pattern_count: u64, bytes: usize) -> bool
    ensures { result ≡ sizes_ok fault_count pattern_count bytes }
{
    in_range(fault_count) && in_range(pattern_count) && bytes as u64 == fault_count * pattern_count
}

// What the rules of a table say: refusals 12 and 13.
pub fn check_table(fault_count: u64, pattern_count: u64, table: &[u8]) -> Result<(), Refusal>
    ensures { result ≡ refusal (table_rules fault_count pattern_count table.now) }
{
    if !sizes_ok(fault_count, pattern_count, table.len()) {
        return Err(Refusal(Reason::TableSize, 0));
    }
    let bad = first_big(table);
    if bad < table.len() {
        return Err(Refusal(Reason::TableByte, bad));
    }
    Ok(())
}

// Refusal 10: one mark per pattern.
fn check_size(pattern_count: u64, marks: &[u8]) -> Result<(), Refusal>
    ensures { result ≡ refusal (marks_rules pattern_count marks.now) }
{
    if marks.len() as u64 != pattern_count {
        return Err(Refusal(Reason::BufferSize, 0));
    }
    Ok(())
}

// What the rules of a table and its marks say: refusals 12 and 13, then 10.
pub fn check_marks(
    fault_count: u64,
    pattern_count: u64,
    table: &[u8],
    marks: &[u8],
) -> Result<(), Refusal>
    ensures { result ≡ refusal (kept_rules fault_count pattern_count table.now marks.now) }
{
    check_table(fault_count, pattern_count, table)?;
    check_size(pattern_count, marks)
}
