// What reports of a tester leave of the marks of faults.
#![tactic(auto)]

ghost use Rattle.std.specs.Prelude.{◌≡◌, ◌≤◌, eqb, ltb, length};
ghost use Rattle.ground.specs.Choose.{choose, one};
ghost use Rattle.ground.specs.Below.{any_below, count_below};
ghost use Rattle.ground.specs.Lists.{table};
ghost use Rattle.ground.specs.Put.{laid_on};
ghost use Rattle.reports.specs.Reports.{against};
ghost use Rattle.reports.specs.Marks.{marked, no_mark};
ghost use Rattle.reports.specs.Owed.{narrowed};

use tables::{FAIL, PASS};

// The entry that speaks against a fault: pass where the pattern failed, fail where it passed.
pub fn entry_against(failed: bool) -> u8
    ensures { result ≡ against failed }
{
    if failed { PASS } else { FAIL }
}

// A mark after a report: cleared where the report speaks against the fault.
fn mark_after(mark: u8, entry: u8, bad: u8) -> u8
    ensures { result ≡ choose (eqb entry bad) 0 mark }
{
    if entry == bad { 0 } else { mark }
}

// The marks after a report, over the front of `after`: those before it, without the faults whose entry in the row is the bad one.
pub fn narrow(marks: &[u8], row: &[u8], bad: u8, after: &mut [u8])
    requires { (length row.now ≤ length marks.now) × (length row.now ≤ length after.old) }
    ensures { after.new ≡ laid_on after.old (narrowed marks.now row.now bad) }
{
    for f in 0..row.len() {
        after[f] = mark_after(marks[f], row[f], bad);
    }
}

// Marks the first n faults.
pub fn mark_all(n: usize, marks: &mut [u8])
    requires { n ≤ length marks.old }
    ensures { marks.new ≡ laid_on marks.old (table (λ f. 1) n) }
{
    marks[..n].fill(1);
}

// How many of the first n faults are marked. Summed, and not filtered: of this the compiler makes a sum of many marks at once.
pub fn count_marks(marks: &[u8], n: usize) -> usize
    requires { n ≤ length marks.now }
    ensures { result ≡ count_below n (marked marks.now) }
{
    let mut count = 0;
    for f in 0..n {
        count += usize::from(marks[f] == 1);
    }
    count
}

// Byte f of the marks of n faults is no mark: above 1 for a fault, above 0 where there is none.
fn no_mark(mark: u8, f: usize, n: usize) -> bool
    ensures { result ≡ ltb (one (ltb f n)) mark }
{
    if f < n {
        return 1 < mark;
    }
    0 < mark
}

// Whether some byte is no mark.
pub fn some_no_mark(marks: &[u8], n: usize) -> bool
    ensures { result ≡ any_below (length marks.now) (no_mark n marks.now) }
{
    (0..marks.len()).any(|f| no_mark(marks[f], f, n))
}
