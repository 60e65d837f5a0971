// The host's reads of RX data and of the RX and TX statuses, for a state that passed the entry test (paper 01, Memory, and refusal 11). The memory is only
// read. Each answers the oldest word of its FIFO, or refusal 11 where none waits; a pop, and a read of RX data, takes that word, a peek leaves it.
// The lent memory is a slice, as 01 names it ("one lent &mut slice of u32, read and written as rings"), so each call asks for its length. The five stay apart over
// pop and peek, since each has its own call of 01 in its contract; a struct of state and memory would be made for one call and no plainer.
#![tactic(auto)]

ghost use Rattle.std.specs.Prelude.{◌≡◌, length};
ghost use Rattle.paper.specs.Memory.{words_lent};
ghost use Rattle.paper.specs.Calls.{RxDataRead, RxStatusPop, RxStatusPeek, TxStatusPop, TxStatusPeek};
ghost use Rattle.paper.specs.Promises.{told, told_of};
ghost use Rattle.reads.specs.Oldest.{oldest_in, popped, peeked};

use entry::Sound;
use paper::{Fifo, Refusal, Reply};

// The oldest word of a FIFO; refusal 11 where none waits.
#[tactic(auto, using(crate::proofs::Reading::at_inside))]
fn oldest(x: Sound, f: Fifo, mem: &[u32]) -> Result<u32, Refusal>
    requires { length mem.now ≡ words_lent }
    ensures { result ≡ oldest_in f x.state mem.now }
{
    let r = x.state.ring(f);
    if r.count == 0 {
        return Err(Refusal::NothingThere);
    }
    Ok(x.part(f).read(mem, r))
}

// Reads the oldest word of a FIFO and takes it; refusal 11 where none waits.
#[tactic(auto, using(crate::proofs::Reading::at_below, crate::proofs::Reading::held_below))]
fn pop(x: Sound, f: Fifo, mem: &[u32]) -> Reply<u32>
    requires { length mem.now ≡ words_lent }
    ensures { result ≡ popped f x.state mem.now }
{
    let s = x.state;
    match oldest(x, f, mem) {
        Ok(word) => Reply::done(word, s.with_ring(f, x.part(f).take(s.ring(f), 1))),
        Err(k) => Reply::refused(k, s),
    }
}

// Reads the oldest word of a FIFO and leaves it; refusal 11 where none waits.
fn peek(x: Sound, f: Fifo, mem: &[u32]) -> Reply<u32>
    requires { length mem.now ≡ words_lent }
    ensures { result ≡ peeked f x.state mem.now }
{
    Reply {
        answer: oldest(x, f, mem),
        state: x.state,
    }
}

// Takes the oldest word of RX data.
#[tactic(auto, using(crate::proofs::Reading::data_read))]
pub fn rx_data_read(x: Sound, mem: &[u32]) -> Reply<u32>
    requires { length mem.now ≡ words_lent }
    ensures { told result.answer result.state mem.now ≡ told_of RxDataRead x.state mem.now }
{
    pop(x, Fifo::RxData, mem)
}

// Takes the oldest RX status.
#[tactic(auto, using(crate::proofs::Reading::rx_popped))]
pub fn rx_status_pop(x: Sound, mem: &[u32]) -> Reply<u32>
    requires { length mem.now ≡ words_lent }
    ensures { told result.answer result.state mem.now ≡ told_of RxStatusPop x.state mem.now }
{
    pop(x, Fifo::RxStatus, mem)
}

// Reads the oldest RX status and leaves it.
#[tactic(auto, using(crate::proofs::Reading::rx_peeked))]
pub fn rx_status_peek(x: Sound, mem: &[u32]) -> Reply<u32>
    requires { length mem.now ≡ words_lent }
    ensures { told result.answer result.state mem.now ≡ told_of RxStatusPeek x.state mem.now }
{
    peek(x, Fifo::RxStatus, mem)
}

// Takes the oldest TX status.
#[tactic(auto, using(crate::proofs::Reading::tx_popped))]
pub fn tx_status_pop(x: Sound, mem: &[u32]) -> Reply<u32>
    requires { length mem.now ≡ words_lent }
    ensures { told result.answer result.state mem.now ≡ told_of TxStatusPop x.state mem.now }
{
    pop(x, Fifo::TxStatus, mem)
}

// Reads the oldest TX status and leaves it.
#[tactic(auto, using(crate::proofs::Reading::tx_peeked))]
pub fn tx_status_peek(x: Sound, mem: &[u32]) -> Reply<u32>
    requires { length mem.now ≡ words_lent }
    ensures { told result.answer result.state mem.now ≡ told_of TxStatusPeek x.state mem.now }
{
    peek(x, Fifo::TxStatus, mem)
}
