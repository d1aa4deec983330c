// The entries of 64 patterns and a fault in two words, and how they come into a table, where they stand one below the other.
#![tactic(auto)]

ghost use Rattle.std.specs.Prelude.{length};
ghost use Rattle.columns.specs.Owed.{ColumnReady, PutColumnDone};

// Bit i of `fails` is set where the entry of lane i is fail, bit i of `unknowns` where it is unknown; where it is pass, neither.
#[derive(Drop)]
pub struct EntryLanes {
    pub fails: u64,
    pub unknowns: u64,
}

// Lays the entries of the first `count` lanes into column j of a table of `width` columns and `count` rows. A lane's two bits make up its
// entry, so that no entry has a branch of its own.
pub fn put_column(table: &mut [u8], width: usize, count: usize, j: usize, entries: EntryLanes)
    requires { ColumnReady width count j (length table.old) }
    ensures { PutColumnDone width count j entries table.old table.new }
{
    let mut fails = entries.fails;
    let mut unknowns = entries.unknowns;
    let mut at = j;
    for _lane in 0..count {
        table[at] = (fails % 2 + 2 * (unknowns % 2)) as u8;
        fails = fails >> 1;
        unknowns = unknowns >> 1;
        at += width;
    }
}
