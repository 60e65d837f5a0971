// A state of which each number is in its range: what the calls behind the test work on.
ghost use Rattle.std.specs.Prelude.{◌≡◌, true};
ghost use Rattle.paper.specs.Refusals.{in_range};

use paper::{Fifo, State};
use rings::Part;
use rings::split::Split;

#[derive(Clone, Copy)]
pub struct Sound {
    pub state: State,
    pub ghost range: { in_range state ≡ true },
}

impl Sound {
    ghost use Rattle.rings.specs.Parts.{PartOf};

    // The part of the lent memory that is a FIFO's.
    pub fn part(self, f: Fifo) -> Part
        ensures { PartOf f self.state.control.registers.n result }
    {
        let split = Split {
            n: self.state.control.registers.n,
        };
        split.part(f)
    }
}
