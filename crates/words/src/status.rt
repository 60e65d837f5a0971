// Status words and level words put together (01, An arriving frame, "RX status"; Words for transmission, its last paragraph; Registers).
ghost use Rattle.std.specs.Prelude.{◌≡◌, true, ◌-◌, ◌≤◌, ◌<◌};
ghost use Rattle.paper.specs.declared.Fifo.TheVariants.{TxData};
ghost use Rattle.paper.specs.Words.{mark};
ghost use Rattle.paper.specs.Memory.{size};
ghost use Rattle.paper.specs.Registers.{rx_fifo_inf, tx_fifo_inf};
ghost use Rattle.paper.specs.Sending.{good_outcome, tx_status};
ghost use Rattle.words.specs.Status.{has_error, outcome_error, status_of, TxLevels};

use crate::fields::{bit_is_set, tag};

// The marks of an RX status but its error mark, which follows from them.
#[derive(Clone, Copy)]
pub struct Marks {
    pub miss: bool,
    pub broadcast: bool,
    pub wronglength: bool,
    pub runt: bool,
    pub group: bool,
    pub long: bool,
    pub collision: bool,
    pub typed: bool,
    pub mii: bool,
    pub dribble: bool,
    pub badfcs: bool,
}

impl Marks {
    // The error mark of an RX status (01: "15: 11, 7, 6 or 1 is set.").
    fn has_error(self) -> bool
        ensures { result ≡ has_error self }
    {
        self.runt || self.long || self.collision || self.badfcs
    }
}

// The word whose bit i is b and whose other bits are 0.
fn mark(i: u32, b: bool) -> u32
    requires { i < 32 }
    ensures { result ≡ mark i b }
{
    u32::from(b) << i
}

// The RX status of a frame of len bytes (01: "The packet length in bits 29 to 16."), from the highest mark down.
pub fn rx_status(len: u32, m: Marks) -> u32
    requires { len ≤ 2048 }
    ensures { result ≡ status_of len m }
{
    mark(30, m.miss)
        | len << 16
        | mark(15, m.has_error())
        | mark(13, m.broadcast)
        | mark(12, m.wronglength)
        | mark(11, m.runt)
        | mark(10, m.group)
        | mark(7, m.long)
        | mark(6, m.collision)
        | mark(5, m.typed)
        | mark(3, m.mii)
        | mark(2, m.dribble)
        | mark(1, m.badfcs)
}

// The error mark of a TX status (01: "bit 15 set if 11, 10, 9, 8 or 2 is").
fn outcome_error(o: u32) -> bool
    ensures { result ≡ outcome_error o }
{
    bit_is_set(11, o)
        || bit_is_set(10, o)
        || bit_is_set(9, o)
        || bit_is_set(8, o)
        || bit_is_set(2, o)
}

// The TX status of a packet whose first B is b (01: "tag in 31-16, bit 15 set if 11, 10, 9, 8 or 2 is, and the outcome").
pub fn tx_status(b: u32, outcome: u32) -> u32
    requires { good_outcome outcome ≡ true }
    ensures { result ≡ tx_status b outcome }
{
    tag(b) << 16 | mark(15, outcome_error(outcome)) | outcome
}

// RX_FIFO_INF (01: "RX statuses waiting in bits 23 to 16, RX data bytes waiting (words times 4) in 15 to 0").
pub fn rx_fifo_inf(statuses: u32, words: u32) -> u32
    requires { (statuses ≤ 224) × (words ≤ 3360) }
    ensures { result ≡ rx_fifo_inf statuses words }
{
    statuses << 16 | words << 2
}

// The words of TX data that are free with this many waiting; 0 where more wait than it holds. This crate lies below rings, so the size stands here too.
fn free_words(n: u32, words: u32) -> u32
    requires { (2 ≤ n) × (n ≤ 14) }
    ensures { result ≡ size TxData n - words }
{
    (256 * n - 128).saturating_sub(words)
}

// TX_FIFO_INF with this many words waiting (01: "TX statuses waiting in 23 to 16, free TX data bytes in 15 to 0").
pub fn tx_fifo_inf(n: u32, statuses: u32, words: u32) -> u32
    requires { TxLevels n statuses }
    ensures { result ≡ tx_fifo_inf n statuses words }
{
    let free = free_words(n, words);
    statuses << 16 | free << 2
}
