// The test that every call makes first: 14, then the ranges of 15 (01, Refusal numbers: "Order: 14, 15 (ranges), then …").
//   sound     a state that passed, for the calls behind it
//   values    the register values that a write accepts
//   port      what the transmit port holds
// Tests of numbers are joined by &: stopping early saves nothing, and the one result is proved at once.
#![tactic(auto)]

ghost use Rattle.std.specs.Prelude.{◌≡◌, MatchResult, Some, None, Err, Ok};
ghost use Rattle.paper.specs.Refusals.{ring_in_range, rings_in_range, whole_in_range, in_range};
ghost use Rattle.entry.specs.Entry.{entry_of};

use paper::{Fifo, Refusal, Reply, Ring, State};
use rings::split::Split;

pub mod port;
pub mod sound;
pub mod values;

pub use sound::Sound;

// 01: "places below the FIFO's size, counts at most the size"
fn ring_in_range(size: u32, r: Ring) -> bool
    ensures { result ≡ ring_in_range size r }
{
    (r.at < size) & (r.count <= size)
}

// The four FIFOs, each by its own size; written out, as the definition has it.
fn rings_in_range(split: Split, s: State) -> bool
    ensures { result ≡ rings_in_range split.n s }
{
    ring_in_range(split.size(Fifo::TxData), s.txdata)
        & ring_in_range(split.size(Fifo::TxStatus), s.txstatus)
        & ring_in_range(split.size(Fifo::RxData), s.rxdata)
        & ring_in_range(split.size(Fifo::RxStatus), s.rxstatus)
}

// 01: "whole packets at most a third of the words held". By a division, for three times any number need not fit a word.
fn whole_in_range(whole: u32, held: u32) -> bool
    ensures { result ≡ whole_in_range whole held }
{
    whole <= held / 3
}

// Each number of the state is in its range (01, refusal 15: "a state number out of its range").
pub fn in_range(s: State) -> bool
    ensures { result ≡ in_range s }
{
    let registers = s.control.registers;
    if !values::good_registers(registers) {
        return false;
    }
    let port = s.control.port;
    let fifos = rings_in_range(Split { n: registers.n }, s);
    let expected = port::expect_in_range(port.expect);
    fifos & expected & whole_in_range(port.whole, s.txdata.count)
}

// The refusal of a call, with this state and a lent memory of so many words, or none: 14, then 15.
// It gives no state back, and is never inlined: the state is not copied out of it and in again.
#[inline(never)]
fn refusal(s: State, words: usize) -> Option<Refusal>
    ensures { result ≡ entry_of s words }
{
    let ranges = in_range(s);
    if words != 4096 {
        return Some(Refusal::MemoryLength);
    }
    if ranges {
        None
    } else {
        Some(Refusal::OutOfRange)
    }
}

// Whether a call may go on, with this state and a lent memory of so many words.
pub fn enter(s: State, words: usize) -> Result<Sound, Refusal>
    ensures { MatchResult result (λ x. (x.state ≡ s) × (entry_of s words ≡ None)) (λ k. entry_of s words ≡ Some k) }
{
    match refusal(s, words) {
        Some(k) => Err(k),
        None => Ok(Sound { state: s }),
    }
}

// Makes a call that needs a sound state; where the test refuses, it is refused so, and the state is as it was.
pub fn entered<T, F: FnOnce(Sound) -> Reply<T>>(s: State, words: usize, call: F) -> Reply<T>
    requires { (x : Sound) → x.state ≡ s → entry_of s words ≡ None → F.pre call x }
    ensures shut { (k : Refusal) → entry_of s words ≡ Some k → result ≡ record { answer = Err k; state = s } }
    ensures clear { entry_of s words ≡ None → (x : Sound) × (x.state ≡ s) × F.post call x result }
{
    match refusal(s, words) {
        Some(k) => Reply::refused(k, s),
        None => call(Sound { state: s }),
    }
}
