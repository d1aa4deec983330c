// Answers as C gets them: each part's answer as a number and three values, by what its good case says, and these as the 32 bytes of the answer area.
#![tactic(auto)]

ghost use Rattle.std.specs.Prelude.{◌≡◌};
ghost use Rattle.answers.specs.Area.{Numbers, in_numbers, number_of, refused_at, done, Entered};
ghost use Rattle.answers.specs.Area as answering;
ghost use Rattle.circuit.specs.Promise.{counts_numbers};
ghost use Rattle.findings.specs.Findings.{finding_numbers};
ghost use Rattle.suspect_areas.specs.Promise.{marks_numbers};
ghost use Rattle.search.specs.Promise.{verdict_numbers};
ghost use Rattle.clauses.specs.Promise.{list_numbers};
ghost use Rattle.unfold.specs.Promise.{lines_numbers};
ghost use Rattle.replies.specs.Replies.{numbers_in};

use answers::{Refusal, put_numbers};
use circuit::Counts;
use clauses::Written;
use findings::Finding;
use nodes::Verdict;
use suspect_areas::Marked;
use unfold::Unfolding;

// The size of the answer area, and the refusal of any other.
pub const AREA: usize = 32;

pub const OTHER_SIZE: u32 = 10;

// An answer in numbers: the refusal's number or 0, and three values. The fourth value of the area is always 0.
#[derive(Drop)]
pub struct Reply {
    number: u32,
    first: u64,
    second: u64,
    third: u64,
}

// ---- each part's answer in numbers

fn success(first: u64, second: u64, third: u64) -> Reply
    ensures { numbers_in result ≡ answering.success first second third }
{
    Reply {
        number: 0,
        first,
        second,
        third,
    }
}

fn refused(why: Refusal) -> Reply
    ensures { numbers_in result ≡ refused_at (number_of why.0) why.1 }
{
    Reply {
        number: why.0.number(),
        first: why.1 as u64,
        second: 0,
        third: 0,
    }
}

// What the good case of an answer says in numbers.
pub trait Reported {
    ghost numbers: { Self → Numbers };

    fn reply(self) -> Reply
        ensures { numbers_in result ≡ numbers self };
}

// A part that only is done.
impl Reported for () {
    ghost numbers = { λ nothing. done };

    fn reply(self) -> Reply {
        success(0, 0, 0)
    }
}

// How many records were written.
impl Reported for usize {
    ghost numbers = { λ n. answering.success n 0 0 };

    fn reply(self) -> Reply {
        success(self as u64, 0, 0)
    }
}

// How many faults remain.
impl Reported for u64 {
    ghost numbers = { λ n. answering.success n 0 0 };

    fn reply(self) -> Reply {
        success(self, 0, 0)
    }
}

// How many lines there are after unfolding.
impl Reported for Unfolding {
    ghost numbers = { lines_numbers };

    fn reply(self) -> Reply {
        success(self.lines as u64, 0, 0)
    }
}

impl Reported for Counts {
    ghost numbers = { counts_numbers };

    fn reply(self) -> Reply {
        success(self.lines as u64, self.inputs as u64, self.outputs as u64)
    }
}

impl Reported for Written {
    ghost numbers = { list_numbers };

    fn reply(self) -> Reply {
        success(
            self.words as u64,
            self.clauses as u64,
            self.variables as u64,
        )
    }
}

impl Reported for Marked {
    ghost numbers = { marks_numbers };

    fn reply(self) -> Reply {
        success(self.remaining, self.faults, self.patterns)
    }
}

impl Reported for Finding {
    ghost numbers = { finding_numbers };

    fn reply(self) -> Reply {
        match self {
            Finding::Sound => success(0, 0, 0),
            Finding::BadMark(mark) => success(1, mark as u64, 0),
            Finding::LostFault(fault) => success(2, fault as u64, 0),
            Finding::LostPair(first, second) => success(3, first as u64, second as u64),
            Finding::SparePattern(pattern) => success(4, pattern as u64, 0),
        }
    }
}

impl Reported for Verdict {
    ghost numbers = { verdict_numbers };

    fn reply(self) -> Reply {
        match self {
            Verdict::Test(nodes) => success(0, nodes, 0),
            Verdict::Redundant(nodes) => success(1, nodes, 0),
            Verdict::GivenUp(nodes) => success(2, nodes, 0),
        }
    }
}

// A part's answer in numbers.
pub fn of_answer<A: Reported>(answer: Result<A, Refusal>) -> Reply
    ensures { numbers_in result ≡ in_numbers A.numbers answer }
{
    match answer {
        Ok(good) => good.reply(),
        Err(why) => refused(why),
    }
}

// ---- the area

// The number is returned, the values are the area's bytes. An area of another size gives 10 and stays.
pub fn report(reply: Reply, area: &mut [u8]) -> u32
    ensures { Entered area.old (numbers_in reply) result area.new }
{
    if area.len() != AREA {
        return OTHER_SIZE;
    }
    put_numbers(area, reply.first, reply.second, reply.third, 0);
    reply.number
}
