// The types of paper 01, the register defaults and the fresh state.
// What they mean is said in specs/; the functions here are proved equal to it.
#![tactic(auto)]

ghost use Rattle.std.specs.Prelude.{◌≡◌, Ok, Err, Some};
ghost use Rattle.paper.specs.Memory.{ring, with_ring};
ghost use Rattle.paper.specs.Fresh.{fresh_registers, fresh_port, empty, fresh_state};
ghost use Rattle.paper.specs.Names.{rule_name};
ghost use Rattle.paper.specs.Arrivals.{line};
ghost use Rattle.paper.specs.Refusals.{number, said};

use std::fmt;

// The registers: n is TX_FIF_SZ, drops is RX_DROP, the others are those of the MAC.
#[derive(Clone, Copy)]
pub struct Registers {
    pub n: u32,
    pub maccr: u32,
    pub addrh: u32,
    pub addrl: u32,
    pub hashh: u32,
    pub hashl: u32,
    pub drops: u32,
}

// The four FIFOs, in the order of the lent memory.
#[derive(Clone, Copy)]
pub enum Fifo {
    TxData,
    TxStatus,
    RxData,
    RxStatus,
}

// A FIFO in the lent memory: the place of its oldest word, and how many words wait.
#[derive(Clone, Copy)]
pub struct Ring {
    pub at: u32,
    pub count: u32,
}

// The packet that the port is taking in: none; open with its first B to come; or with that B and the sizes so far.
#[derive(Clone, Copy)]
pub enum Packet {
    Closed,
    Opened,
    Known { b: u32, sizes: u32 },
}

// What the port expects next.
#[derive(Clone, Copy)]
pub enum Expect {
    CommandA(Packet),
    CommandB { a: u32, packet: Packet },
    Payload { a: u32, left: u32, packet: Packet },
}

// The transmit port: what it expects, whether a transmit error stands, how many whole packets wait.
#[derive(Clone, Copy)]
pub struct Port {
    pub expect: Expect,
    pub failed: bool,
    pub whole: u32,
}

#[derive(Clone, Copy)]
pub struct Control {
    pub registers: Registers,
    pub port: Port,
}

#[derive(Clone, Copy)]
pub struct State {
    pub control: Control,
    pub txdata: Ring,
    pub txstatus: Ring,
    pub rxdata: Ring,
    pub rxstatus: Ring,
}

// The rule that a setting of the five mode bits gives for an address.
#[derive(Clone, Copy)]
pub enum Rule {
    Equal,
    NotEqual,
    Hash,
    Pass,
}

// The rules for group and for individual addresses.
#[derive(Clone, Copy)]
pub struct Rules {
    pub group: Rule,
    pub individual: Rule,
}

// A setting of the five mode bits: its rules; none where it is undefined.
pub type Setting = Option<Rules>;

// What the room test answers. No bool: a reader of a call sees which is which.
#[derive(Clone, Copy)]
pub enum Room {
    Fits,
    Short,
}

// The refusals, by their numbers, 1 to 15.
#[derive(Clone, Copy)]
pub enum Refusal {
    ArrivingLength = 1,
    OtherBits,
    NoRegister,
    BadValue,
    NotNow,
    ErrorStands,
    BadCommand,
    Disagrees,
    DataFull,
    SendingOff,
    NothingThere,
    StatusFull,
    OutShort,
    MemoryLength,
    OutOfRange,
}

// The answer of a call: its value, or a refusal.
pub type Answer = Result<u32, Refusal>;

// The line of 01 that answers an arriving frame which is not refused, by its number, 3 to 7.
#[derive(Clone, Copy, Debug)]
pub enum Arrival {
    Ignored = 3,
    Discarded,
    Filtered,
    Dropped,
    Stored,
}

// What a call answers, with the state after it.
#[derive(Clone, Copy)]
pub struct Reply<T> {
    pub answer: Result<T, Refusal>,
    pub state: State,
}

impl<T> Reply<T> {
    // A call done: its answer, and the state after it.
    pub fn done(x: T, after: State) -> Self
        ensures { result ≡ record { answer = Ok x; state = after } }
    {
        Self {
            answer: Ok(x),
            state: after,
        }
    }

    // A call refused: the state as it was.
    pub fn refused(k: Refusal, s: State) -> Self
        ensures { result ≡ record { answer = Err k; state = s } }
    {
        Self {
            answer: Err(k),
            state: s,
        }
    }
}

// An answer in numbers, as 01 gives it: the refusal's number, 0 for none, and the value.
#[derive(Clone, Copy)]
pub struct Said {
    pub refusal: u32,
    pub value: u32,
}

impl Registers {
    pub const MAC_CR: u32 = 0;

    pub const ADDRH: u32 = 0x0000_FFFF;

    pub const ADDRL: u32 = 0xFFFF_FFFF;

    pub const SPLIT: u32 = 5;

    // Bits of MAC_CR by number (01: "31 RXALL, .. 16 PASSBAD, .. 11 BCAST, 3 TXEN, 2 RXEN").
    pub const RXALL: u32 = 31;

    pub const PASSBAD: u32 = 16;

    pub const BCAST: u32 = 11;

    pub const TXEN: u32 = 3;

    pub const RXEN: u32 = 2;

    // The defaults.
    pub fn fresh() -> Self
        ensures { result ≡ fresh_registers }
    {
        Self {
            n: Self::SPLIT,
            maccr: Self::MAC_CR,
            addrh: Self::ADDRH,
            addrl: Self::ADDRL,
            hashh: 0,
            hashl: 0,
            drops: 0,
        }
    }
}

impl Ring {
    // A FIFO just restarted: no word waits, and the next one goes to place 0.
    pub fn empty() -> Self
        ensures { result ≡ empty }
    {
        Self { at: 0, count: 0 }
    }
}

impl Port {
    // No transmit error, no packet open or whole, the port expecting an A.
    pub fn fresh() -> Self
        ensures { result ≡ fresh_port }
    {
        Self {
            expect: Expect::CommandA(Packet::Closed),
            failed: false,
            whole: 0,
        }
    }
}

impl State {
    // The fresh state: the defaults, and four empty FIFOs.
    pub fn fresh() -> Self
        ensures { result ≡ fresh_state }
    {
        Self {
            control: Control {
                registers: Registers::fresh(),
                port: Port::fresh(),
            },
            txdata: Ring::empty(),
            txstatus: Ring::empty(),
            rxdata: Ring::empty(),
            rxstatus: Ring::empty(),
        }
    }

    // The ring of a FIFO.
    pub fn ring(self, f: Fifo) -> Ring
        ensures { result ≡ ring f self }
    {
        match f {
            Fifo::TxData => self.txdata,
            Fifo::TxStatus => self.txstatus,
            Fifo::RxData => self.rxdata,
            Fifo::RxStatus => self.rxstatus,
        }
    }

    // The state with another ring of a FIFO.
    pub fn with_ring(self, f: Fifo, r: Ring) -> Self
        ensures { result ≡ with_ring f r self }
    {
        match f {
            Fifo::TxData => State { txdata: r, ..self },
            Fifo::TxStatus => State {
                txstatus: r,
                ..self
            },
            Fifo::RxData => State { rxdata: r, ..self },
            Fifo::RxStatus => State {
                rxstatus: r,
                ..self
            },
        }
    }
}

// 01's number of a refusal.
impl From<Refusal> for u32 {
    ghost from_gives = { λ k v. v ≡ number k };

    fn from(k: Refusal) -> u32 {
        k as u32
    }
}

// 01's number of the line that answered an arriving frame.
impl From<Arrival> for u32 {
    ghost from_gives = { λ a v. v ≡ line a };

    fn from(a: Arrival) -> u32 {
        a as u32
    }
}

// An answer in numbers: 0 and the value, or the refusal's number and 0.
impl From<Answer> for Said {
    ghost from_gives = { λ a s. s ≡ said a };

    fn from(a: Answer) -> Said {
        match a {
            Ok(value) => Said { refusal: 0, value },
            Err(k) => Said {
                refusal: u32::from(k),
                value: 0,
            },
        }
    }
}

impl fmt::Display for Rule {
    ghost output = { λ r. Some (rule_name r) };

    fn fmt<W: fmt::Write>(&self, f: &mut fmt::Formatter<W>) -> fmt::Result {
        f.write_str(match self {
            Rule::Equal => "equal",
            Rule::NotEqual => "not-equal",
            Rule::Hash => "hash",
            Rule::Pass => "pass",
        })
    }
}
