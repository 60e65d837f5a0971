// The states and the memory that trials begin with, and the lines of a trial (docs/REHEARSAL.md, How things are written).
use crate::digests::Digest;
use crate::frames::Frame;
use crate::lines::{ByName, InNumbers};
use paper::{Arrival, Control, Registers, Reply, State};
use std::{fmt, io};

// MAC_CR with RXEN; with RXEN and PASSBAD; with TXEN.
pub const RXEN: u32 = 0x0000_0004;

pub const PASSBAD: u32 = 0x0001_0004;

pub const TXEN: u32 = 0x0000_0008;

// What the trials work on: where their lines are printed, and the lent memory.
// The state is no part of it: a part goes on from one state more than once.
#[derive(Drop)]
pub struct Bench<'a, P> {
    pub rt: &'a P,
    pub mem: &'a mut [u32],
}

// Filled memory: word i is (i + 1) times 9E3779B9h.
fn fill(mem: &mut [u32]) {
    let mut filled: u32 = 0;
    for w in mem {
        filled = filled.wrapping_add(0x9E37_79B9);
        *w = filled;
    }
}

// The writes of B(n, MAC_CR) after set_split: each register's name, number and value.
pub fn writes(maccr: u32) -> [(&'static str, u32, u32); 3] {
    [
        ("addrh", 2, 0x0000_5544),
        ("addrl", 3, 0x3322_1102),
        ("maccr", 1, maccr),
    ]
}

// B(n, MAC_CR).
pub fn base(n: u32, maccr: u32, mem: &[u32]) -> State {
    let mut s = model::set_split(State::fresh(), mem, n).state;
    for (_, register, value) in writes(maccr) {
        s = model::mac_write(s, mem, register, value).state;
    }
    s
}

// A state with other registers, which no call may have made.
pub fn with_registers(s: State, registers: Registers) -> State {
    State {
        control: Control {
            registers,
            ..s.control
        },
        ..s
    }
}

// A state with another n.
pub fn with_n(s: State, n: u32) -> State {
    with_registers(
        s,
        Registers {
            n,
            ..s.control.registers
        },
    )
}

// A frame arrives, with these flags.
pub fn arrive(s: State, mem: &mut [u32], frame: Frame, flags: u32) -> Reply<Arrival> {
    let mut space = [0; 2049];
    model::arrive(s, mem, frame.make(&mut space), flags)
}

// The digests of state and memory.
#[derive(Clone, Copy)]
pub struct Digests {
    state: Digest,
    memory: Digest,
}

impl Digests {
    pub fn of(state: State, mem: &[u32]) -> Self {
        Self {
            state: Digest::of_state(state),
            memory: Digest::EMPTY.with_all(mem),
        }
    }
}

impl fmt::Display for Digests {
    fn fmt<W: fmt::Write>(&self, f: &mut fmt::Formatter<W>) -> fmt::Result {
        let Self { state, memory } = self;
        write!(f, "state {state} memory {memory}")
    }
}

// What rx_fifo_inf and rx_drop answer, asked of copies.
#[derive(Clone, Copy)]
pub struct Levels {
    inf: InNumbers,
    drops: InNumbers,
}

impl Levels {
    pub fn of(s: State, mem: &[u32]) -> Self {
        Self {
            inf: InNumbers(model::rx_fifo_inf(s, mem).answer),
            drops: InNumbers(model::rx_drop(s, mem).answer),
        }
    }
}

impl fmt::Display for Levels {
    fn fmt<W: fmt::Write>(&self, f: &mut fmt::Formatter<W>) -> fmt::Result {
        let Self { inf, drops } = self;
        write!(f, "inf {inf} drop {drops}")
    }
}

impl<P: Print> Bench<'_, P> {
    // The line that begins a part, and filled memory.
    pub fn begin(&mut self, name: impl fmt::Display + Drop) -> io::Result<()> {
        println!(self.rt; "== {name}")?;
        fill(self.mem);
        Ok(())
    }

    // B(n, MAC_CR).
    pub fn base(&self, n: u32, maccr: u32) -> State {
        base(n, maccr, self.mem)
    }

    // A call line. Answers the state after the call.
    pub fn called(&self, label: impl fmt::Display + Drop, r: Reply<u32>) -> io::Result<State> {
        let said = InNumbers(r.answer);
        let digests = Digests::of(r.state, self.mem);
        println!(self.rt; "{label}: {said} {digests}")?;
        Ok(r.state)
    }

    // A call that writes no memory, and its call line. Answers the state after the call.
    pub fn call<F: FnOnce(State, &[u32]) -> Reply<u32>>(
        &self,
        label: impl fmt::Display + Drop,
        s: State,
        call: F,
    ) -> io::Result<State>
        requires { F.IsAlwaysCallable call }
    {
        self.called(label, call(s, self.mem))
    }

    // An arrival line. Answers the state after the arrival.
    pub fn arrived(&self, label: impl fmt::Display + Drop, a: Reply<Arrival>) -> io::Result<State> {
        let answer = ByName(a.answer);
        let levels = Levels::of(a.state, self.mem);
        let peek = InNumbers(model::rx_status_peek(a.state, self.mem).answer);
        let digests = Digests::of(a.state, self.mem);
        println!(self.rt; "{label}: {answer} {levels} peek {peek} {digests}")?;
        Ok(a.state)
    }

    // A frame arrives, with these flags.
    pub fn arrive(&mut self, s: State, frame: Frame, flags: u32) -> Reply<Arrival> {
        arrive(s, self.mem, frame, flags)
    }

    // The same, and its arrival line.
    pub fn arrives(
        &mut self,
        label: impl fmt::Display + Drop,
        s: State,
        frame: Frame,
        flags: u32,
    ) -> io::Result<State> {
        let a = self.arrive(s, frame, flags);
        self.arrived(label, a)
    }
}
