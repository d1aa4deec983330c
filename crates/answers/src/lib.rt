// Why a part refuses, with a place; and the 32 bytes in which C reads an answer.
#![tactic(auto)]

ghost use Rattle.std.specs.Prelude.{◌≡◌, ◌<◌, length};
ghost use Rattle.ground.specs.Below.{first_not};
ghost use Rattle.answers.specs.Rules.{refusal};
ghost use Rattle.answers.specs.Small.{small_ok};
ghost use Rattle.answers.specs.Lent.{lent_rules};
ghost use Rattle.answers.specs.Records.{records_ok};
ghost use Rattle.answers.specs.Area.{number_of, area_of};

use little::put_eight;

// How many records an empty list has.
const EMPTY: usize = 0;

// The largest byte that is a value or an entry.
const LARGEST: u8 = 2;

// Why a part refuses, in the order of the refusals' numbers; the names are those of the C header, where each is told in words.
#[derive(Clone, Copy, Debug, PartialEq, Eq)]
pub enum Reason {
    CircuitSize,
    CircuitLayout,
    ManyInputs,
    NoOutput,
    FaultsSize,
    FaultLayout,
    PatternsSize,
    PatternByte,
    BufferSize,
    NoRoom,
    TableSize,
    TableByte,
    BenchSyntax,
    BenchName,
    BenchCycle,
    NoPattern,
    StateRecords,
    UnfoldedSize,
    StepCount,
    NotOpened,
}

impl Reason {
    // The refusal's number: what C gets, and what is printed.
    pub fn number(self) -> u32
        ensures { result ≡ number_of self }
    {
        match self {
            Reason::CircuitSize => 1,
            Reason::CircuitLayout => 2,
            Reason::ManyInputs => 4,
            Reason::NoOutput => 5,
            Reason::FaultsSize => 6,
            Reason::FaultLayout => 7,
            Reason::PatternsSize => 8,
            Reason::PatternByte => 9,
            Reason::BufferSize => 10,
            Reason::NoRoom => 11,
            Reason::TableSize => 12,
            Reason::TableByte => 13,
            Reason::BenchSyntax => 14,
            Reason::BenchName => 15,
            Reason::BenchCycle => 16,
            Reason::NoPattern => 17,
            Reason::StateRecords => 18,
            Reason::UnfoldedSize => 19,
            Reason::StepCount => 21,
            Reason::NotOpened => 22,
        }
    }
}

// A refusal: why, and the place.
#[derive(Clone, Copy, Debug, PartialEq, Eq)]
pub struct Refusal(pub Reason, pub usize);

// Whether so many bytes are whole records of a width: at least one, and at most `most`.
pub fn records_ok(bytes: usize, width: usize, most: usize) -> bool
    requires { 0 < width }
    ensures { result ≡ records_ok width most bytes }
{
    if bytes % width != 0 {
        return false;
    }
    let n = bytes / width;
    if n == EMPTY {
        return false;
    }
    n <= most
}

// The place of the first byte that is above 2, or the length.
pub fn first_big(bytes: &[u8]) -> usize
    ensures { result ≡ first_not (length bytes.now) (small_ok bytes.now) }
{
    bytes
        .iter()
        .position(|&byte| LARGEST < byte)
        .unwrap_or(bytes.len())
}

// Refusal 10 for two lent buffers: each has its size.
pub fn check_lent(size: usize, lent: usize, size2: usize, lent2: usize) -> Result<(), Refusal>
    ensures { result ≡ refusal (lent_rules size lent size2 lent2) }
{
    if lent != size {
        return Err(Refusal(Reason::BufferSize, 0));
    }
    if lent2 != size2 {
        return Err(Refusal(Reason::BufferSize, 0));
    }
    Ok(())
}

// Writes the four numbers of an answer.
pub fn put_numbers(area: &mut [u8], a: u64, b: u64, c: u64, d: u64)
    requires { length area.old ≡ 32 }
    ensures { area.new ≡ area_of (record { first = a; second = b; third = c; fourth = d }) }
{
    put_eight(area, 0, a);
    put_eight(area, 8, b);
    put_eight(area, 16, c);
    put_eight(area, 24, d);
}
