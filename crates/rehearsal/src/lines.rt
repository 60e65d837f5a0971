// Answers as they are printed (docs/REHEARSAL.md, How things are written).
ghost use Rattle.std.specs.Prelude.{◌≡◌};
ghost use Rattle.paper.specs.Arrivals.{arrival_answer};

use paper::{Answer, Arrival, Refusal, Reply, Said};
use std::fmt;

// What a frame's arrival is answered, its answer by 01's value: the line that applied.
pub fn reply(a: Reply<Arrival>) -> Reply<u32>
    ensures { result ≡ record { answer = arrival_answer a.answer; state = a.state } }
{
    Reply {
        answer: a.answer.map(u32::from),
        state: a.state,
    }
}

// An answer, printed as SAID.
#[derive(Clone, Copy)]
pub struct InNumbers(pub Answer);

impl fmt::Display for InNumbers {
    fn fmt<W: fmt::Write>(&self, f: &mut fmt::Formatter<W>) -> fmt::Result {
        let Said { refusal, value } = Said::from(self.0);
        write!(f, "{refusal} {value:08x}")
    }
}

// The answer to an arriving frame, printed as ANSWER.
#[derive(Clone, Copy)]
pub struct ByName(pub Result<Arrival, Refusal>);

impl fmt::Display for ByName {
    fn fmt<W: fmt::Write>(&self, f: &mut fmt::Formatter<W>) -> fmt::Result {
        match self.0 {
            Ok(line) => write!(f, "{line:?}"),
            Err(k) => write!(f, "refused {}", u32::from(k)),
        }
    }
}
