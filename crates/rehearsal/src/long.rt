// Part `long`: 10,000 steps by drawn numbers, each answer of which goes into one digest (docs/REHEARSAL.md).
use crate::digests::Digest;
use crate::frames::{Frame, To};
use crate::trials::{Bench, Digests};
use crate::{frames, lines, settings, trials};
use paper::{Reply, Said, State};
use std::io;

// The lent memory, the state, what the page calls x, and the digest of all answers so far.
#[derive(Drop)]
struct Run<'a> {
    mem: &'a mut [u32],
    state: State,
    x: u32,
    answers: Digest,
}

fn length_of(b: u32) -> u16 {
    let more = b / 4;
    let length = match b % 4 {
        0 => 14 + more % 64,
        1 => 60 + more % 8,
        2 => 64 + more % 512,
        _ => 1490 + more % 64,
    };
    // by `as`: no length above is more than 1,553
    length as u16
}

fn destination_of(c: u32) -> To {
    match c % 8 {
        4 => To::Other,
        5 => To::Group,
        6 => To::Near,
        7 => To::All,
        _ => To::Ours,
    }
}

fn kind_of(c: u32, length: u16) -> u16 {
    match c / 8 % 4 {
        0 => length.saturating_sub(18),
        1 => frames::TYPE,
        2 => 46,
        _ => 0x0600,
    }
}

fn flags_of(c: u32) -> u32 {
    match c / 32 % 16 {
        0 => 4,
        1 => 8,
        2 => 64,
        3 => 1,
        _ => 0,
    }
}

// MAC_CR by c: the mode bits, RXEN, PASSBAD, RXALL, BCAST.
fn maccr_of(c: u32) -> u32 {
    let rxen: u32 = if c / 32 % 8 == 0 { 0 } else { 4 };
    let bits = c / 256 % 2 << 16 | c / 512 % 2 << 31 | c / 1024 % 2 << 11;
    settings::maccr_of(c % 32) | rxen | bits
}

impl Run<'_> {
    fn draw(&mut self) -> u32 {
        let left = self.x ^ self.x << 13;
        let right = left ^ left >> 17;
        self.x = right ^ right << 5;
        self.x
    }

    // The state after a call; its answer goes into the digest.
    fn note(&mut self, r: Reply<u32>) {
        let Said { refusal, value } = Said::from(r.answer);
        self.answers = self.answers.with(refusal).with(value);
        self.state = r.state;
    }

    // A call that writes no memory.
    fn call<F: FnOnce(State, &[u32]) -> Reply<u32>>(&mut self, call: F)
        requires { F.IsAlwaysCallable call }
    {
        let r = call(self.state, self.mem);
        self.note(r);
    }

    fn arrive(&mut self, i: usize, b: u32, c: u32) {
        let length = length_of(b);
        let frame = Frame {
            length,
            kind: kind_of(c, length),
            take: i,
            to: destination_of(c),
        };
        let a = trials::arrive(self.state, self.mem, frame, flags_of(c));
        self.note(lines::reply(a));
    }

    // So many data words are read.
    fn read(&mut self, count: u32) {
        for _ in 0..count {
            self.call(model::rx_data_read);
        }
    }

    fn look(&mut self, b: u32) {
        match b % 4 {
            0 => self.call(model::rx_status_peek),
            1 => self.call(model::rx_fifo_inf),
            2 => self.call(model::rx_drop),
            _ => self.call(model::tx_fifo_inf),
        }
    }

    fn mac_write(&mut self, register: u32, value: u32) {
        self.call(|s, mem| model::mac_write(s, mem, register, value));
    }

    fn write(&mut self, b: u32, c: u32) {
        match b % 8 {
            5 => self.mac_write(2, 0x0000_5544),
            6 => self.mac_write(3, 0x3322_1102),
            7 => self.mac_write(4 + c % 3, c),
            _ => self.mac_write(1, maccr_of(c)),
        }
    }

    // Receiving is turned off, RX dumped, n set, and receiving turned on.
    fn resize(&mut self, n: u32) {
        self.mac_write(1, 0);
        self.call(model::dump_rx);
        self.call(|s, mem| model::set_split(s, mem, n));
        self.mac_write(1, 4);
    }

    fn restart(&mut self, b: u32, c: u32) {
        match b % 4 {
            0 => self.resize(c % 17),
            1 => self.call(model::dump_rx),
            2 => self.call(model::dump_tx_status),
            _ => self.call(model::dump_tx_data),
        }
    }

    fn reset(&mut self, b: u32, c: u32) {
        if b % 8 == 0 {
            self.call(model::reset);
            self.mac_write(1, 4);
        } else {
            self.call(|s, mem| model::mac_read(s, mem, 1 + c % 6));
        }
    }

    // Step i.
    fn step(&mut self, i: usize) {
        let a = self.draw();
        let b = self.draw();
        let c = self.draw();
        match a % 16 {
            0..=6 => self.arrive(i, b, c),
            7..=9 => self.read(1 + b % 120),
            10 | 11 => self.call(model::rx_status_pop),
            12 => self.look(b),
            13 => self.write(b, c),
            14 => self.restart(b, c),
            _ => self.reset(b, c),
        }
    }
}

// All steps; a line after each five hundred.
pub fn part(bench: &mut Bench<impl Print>) -> io::Result<()> {
    bench.begin("long")?;
    let mut run = Run {
        state: bench.base(5, trials::RXEN),
        mem: &mut *bench.mem,
        x: 2463534242,
        answers: Digest::EMPTY,
    };
    for i in 0..10_000 {
        run.step(i);
        let made = i + 1;
        if made % 500 == 0 {
            let answers = run.answers;
            let digests = Digests::of(run.state, run.mem);
            println!(bench.rt; "step {made}: answers {answers} {digests}")?;
        }
    }
    Ok(())
}
