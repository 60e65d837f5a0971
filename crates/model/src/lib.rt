// The public calls. Each takes the state by value and the lent memory, and answers the state after it with its answer (01, Refusal numbers).
// No call relies on its caller: each refuses 14, where the lent memory is not 4,096 words, then 15, where a number of the state is out of its range, and changes nothing; then come
// the refusals that its comment lists, in that order. Each contract is one equation with `step` of the definitions.
// The calls look alike, and each stays: a driver calls it by its name, and its contract names its call. The state goes in by value beside the lent memory, as the C interface will have them.
#![tactic(auto, using(entry::proofs::Shut::told_entered, entry::proofs::Shut::told_shut))]

ghost use Rattle.std.specs.Prelude.{◌≡◌};
ghost use Rattle.paper.specs.Arrivals.{arrival_answer};
ghost use Rattle.paper.specs.Calls.{Reset, MacWrite, MacRead, SetSplit, Split, RxFifoInf, TxFifoInf, RxDrop, DumpTxData, DumpTxStatus, DumpRx};
ghost use Rattle.paper.specs.Calls.{Arrive, RxDataRead, RxStatusPop, RxStatusPeek, TxStatusPop, TxStatusPeek};
ghost use Rattle.paper.specs.Promises.{told, told_of};

use entry::entered;
use paper::{Arrival, Refusal, Reply, State};

// Resets the model to the fresh state, whatever the state was. Refuses 14 only.
pub fn reset(s: State, mem: &[u32]) -> Reply<u32>
    ensures { told result.answer result.state mem.now ≡ told_of Reset s mem.now }
{
    if mem.len() != 4096 {
        return Reply::refused(Refusal::MemoryLength, s);
    }
    registers::reset(s)
}

// Writes a MAC register, 1 to 5. Refuses 3 (no such register), 4 (bad value).
pub fn mac_write(s: State, mem: &[u32], register: u32, value: u32) -> Reply<u32>
    ensures { told result.answer result.state mem.now ≡ told_of (MacWrite register value) s mem.now }
{
    entered(s, mem.len(), |x| registers::mac_write(x, register, value))
}

// Reads a MAC register, 1 to 5. Refuses 3 (no such register).
pub fn mac_read(s: State, mem: &[u32], register: u32) -> Reply<u32>
    ensures { told result.answer result.state mem.now ≡ told_of (MacRead register) s mem.now }
{
    entered(s, mem.len(), |x| registers::mac_read(x, register))
}

// Sets TX_FIF_SZ and restarts all FIFOs. Refuses 4 (n outside 2 to 14), 5 (not allowed now).
pub fn set_split(s: State, mem: &[u32], n: u32) -> Reply<u32>
    ensures { told result.answer result.state mem.now ≡ told_of (SetSplit n) s mem.now }
{
    entered(s, mem.len(), |x| registers::set_split(x, n))
}

// Answers n, TX_FIF_SZ.
pub fn split(s: State, mem: &[u32]) -> Reply<u32>
    ensures { told result.answer result.state mem.now ≡ told_of Split s mem.now }
{
    entered(s, mem.len(), registers::split)
}

// Answers RX_FIFO_INF: statuses waiting in bits 23 to 16, data bytes waiting in 15 to 0.
pub fn rx_fifo_inf(s: State, mem: &[u32]) -> Reply<u32>
    ensures { told result.answer result.state mem.now ≡ told_of RxFifoInf s mem.now }
{
    entered(s, mem.len(), registers::rx_fifo_inf)
}

// Answers TX_FIFO_INF: statuses waiting in bits 23 to 16, free data bytes in 15 to 0.
pub fn tx_fifo_inf(s: State, mem: &[u32]) -> Reply<u32>
    ensures { told result.answer result.state mem.now ≡ told_of TxFifoInf s mem.now }
{
    entered(s, mem.len(), registers::tx_fifo_inf)
}

// Answers RX_DROP, the frames dropped since it was last read or reset, and clears it.
pub fn rx_drop(s: State, mem: &[u32]) -> Reply<u32>
    ensures { told result.answer result.state mem.now ≡ told_of RxDrop s mem.now }
{
    entered(s, mem.len(), registers::rx_drop)
}

// Restarts TX data and forgets every packet and the transmit error. Refuses 5 (TXEN set).
pub fn dump_tx_data(s: State, mem: &[u32]) -> Reply<u32>
    ensures { told result.answer result.state mem.now ≡ told_of DumpTxData s mem.now }
{
    entered(s, mem.len(), registers::dump_tx_data)
}

// Restarts TX status.
pub fn dump_tx_status(s: State, mem: &[u32]) -> Reply<u32>
    ensures { told result.answer result.state mem.now ≡ told_of DumpTxStatus s mem.now }
{
    entered(s, mem.len(), registers::dump_tx_status)
}

// Restarts RX data and RX status. Refuses 5 (RXEN set).
pub fn dump_rx(s: State, mem: &[u32]) -> Reply<u32>
    ensures { told result.answer result.state mem.now ≡ told_of DumpRx s mem.now }
{
    entered(s, mem.len(), registers::dump_rx)
}

// A frame arrives, from destination address to FCS, with its wire flags. Refuses 1 (length 0 or above 2,048) and 2 (flags other than bits 6, 3 and 2).
// Answers which line of 01 applied: Ignored, Discarded, Filtered, Dropped or Stored.
pub fn arrive(s: State, mem: &mut [u32], frame: &[u8], flags: u32) -> Reply<Arrival>
    ensures { told (arrival_answer result.answer) result.state mem.new ≡ told_of (Arrive frame.now flags) s mem.old }
{
    // Not by `entered`: of what a closure writes through its captures the caller would learn nothing.
    match entry::enter(s, mem.len()) {
        Ok(x) => receive::arrive(x, mem, frame, flags),
        Err(k) => Reply::refused(k, s),
    }
}

// Reads the oldest RX data word and frees its place. Refuses 11 (none waiting).
pub fn rx_data_read(s: State, mem: &[u32]) -> Reply<u32>
    ensures { told result.answer result.state mem.now ≡ told_of RxDataRead s mem.now }
{
    entered(s, mem.len(), |x| reads::rx_data_read(x, mem))
}

// Takes the oldest RX status and frees its place. Refuses 11 (none waiting).
pub fn rx_status_pop(s: State, mem: &[u32]) -> Reply<u32>
    ensures { told result.answer result.state mem.now ≡ told_of RxStatusPop s mem.now }
{
    entered(s, mem.len(), |x| reads::rx_status_pop(x, mem))
}

// Shows the oldest RX status. Refuses 11 (none waiting).
pub fn rx_status_peek(s: State, mem: &[u32]) -> Reply<u32>
    ensures { told result.answer result.state mem.now ≡ told_of RxStatusPeek s mem.now }
{
    entered(s, mem.len(), |x| reads::rx_status_peek(x, mem))
}

// Takes the oldest TX status and frees its place. Refuses 11 (none waiting).
pub fn tx_status_pop(s: State, mem: &[u32]) -> Reply<u32>
    ensures { told result.answer result.state mem.now ≡ told_of TxStatusPop s mem.now }
{
    entered(s, mem.len(), |x| reads::tx_status_pop(x, mem))
}

// Shows the oldest TX status. Refuses 11 (none waiting).
pub fn tx_status_peek(s: State, mem: &[u32]) -> Reply<u32>
    ensures { told result.answer result.state mem.now ≡ told_of TxStatusPeek s mem.now }
{
    entered(s, mem.len(), |x| reads::tx_status_peek(x, mem))
}
