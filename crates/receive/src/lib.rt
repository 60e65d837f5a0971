// The work of an arriving frame, for a state that passed the entry test (paper 01, An arriving frame). A frame is judged first and written last: nothing is
// written before all of it is known to fit.
//   judge     the seven lines
//   status    the RX status
// Tests of numbers are joined by & and |: stopping early saves nothing, and the one result is proved at once.
// The lent memory is a slice of 4,096 words, as the paper names it, and so each function that writes it asks for that length.
#![tactic(auto)]

mod judge;
mod status;

ghost use Rattle.std.specs.Prelude.{◌≡◌, Ok, length};
ghost use Rattle.paper.specs.Memory.{words_lent};
ghost use Rattle.paper.specs.Arrivals.{arrival_answer};
ghost use Rattle.paper.specs.Calls.{Arrive};
ghost use Rattle.paper.specs.Promises.{told, told_of};
ghost use Rattle.receive.specs.Judging.{seen, verdict_of, Fitting, arrived_at, Leaves, dropped};

use entry::Sound;
use paper::{Arrival, Fifo, Refusal, Reply, State};

// A frame as it arrives, with its wire flags.
#[derive(Clone, Copy)]
pub(crate) struct Wire<'a> {
    pub frame: &'a [u8],
    pub flags: u32,
}

// 01, line 7: "Stored: data words ..; one status".
fn store(x: Sound, mem: &mut [u32], w: Wire) -> State
    requires lent { length mem.old ≡ words_lent }
    requires fitting { Fitting x.state (length w.frame.now) }
    ensures { Leaves (arrived_at (Ok Arrival.Stored) x.state mem.old w.entry) result mem.new }
{
    let s = x.state;
    let status = status::status_of(s.control.registers, w);
    let rxdata = x.part(Fifo::RxData).put_frame(mem, s.rxdata, w.frame);
    let rxstatus = x.part(Fifo::RxStatus).put(mem, s.rxstatus, status);
    State {
        rxdata,
        rxstatus,
        ..s
    }
}

// 01, line 6: "Dropped, RX_DROP plus one and no other change"; the count after FFFFFFFFh is 0.
fn count_drop(mut s: State) -> State
    ensures { result ≡ dropped s }
{
    s.control.registers.drops = s.control.registers.drops.wrapping_add(1);
    s
}

// What the line that answers does: Stored writes, Dropped counts, the others, and a refusal, leave all as it was.
#[tactic(auto, unfolding(paper::specs::Acts::arrives, paper::specs::Machine::apply, paper::specs::Memory::ring_after, paper::specs::Memory::memory_after))]
fn act_on(a: Result<Arrival, Refusal>, x: Sound, mem: &mut [u32], w: Wire) -> State
    requires lent { length mem.old ≡ words_lent }
    requires judged { a ≡ verdict_of x.state (seen w) }
    ensures { Leaves (arrived_at a x.state mem.old w.entry) result mem.new }
{
    match a {
        Ok(Arrival::Stored) => store(x, mem, w),
        Ok(Arrival::Dropped) => count_drop(x.state),
        Ok(Arrival::Ignored | Arrival::Discarded | Arrival::Filtered) | Err(_) => x.state,
    }
}

// An arriving frame with its flags: the line that answers, and the state after it.
pub fn arrive(x: Sound, mem: &mut [u32], frame: &[u8], flags: u32) -> Reply<Arrival>
    requires { length mem.old ≡ words_lent }
    ensures { told (arrival_answer result.answer) result.state mem.new ≡ told_of (Arrive frame.now flags) x.state mem.old }
{
    let w = Wire { frame, flags };
    let a = judge::verdict(x, w);
    Reply {
        answer: a,
        state: act_on(a, x, mem, w),
    }
}
