// Digests of words, states and memory (docs/REHEARSAL.md, How things are written).
use paper::{Expect, Packet, Port, Registers, Ring, State};
use std::fmt;

// The digest of the words so far. It is printed as VALUE.
#[derive(Clone, Copy)]
pub struct Digest(u32);

impl Digest {
    // The digest of no words.
    pub const EMPTY: Digest = Digest(0);

    // With one word more.
    pub fn with(self, w: u32) -> Self {
        let e = self.0.rotate_left(5).wrapping_add(w);
        Self(e ^ e >> 13)
    }

    // With each of these words, in turn.
    pub fn with_all(self, words: &[u32]) -> Self {
        let mut d = self;
        for w in words {
            d = d.with(*w);
        }
        d
    }

    fn with_registers(self, r: Registers) -> Self {
        self.with_all(&[r.n, r.maccr, r.addrh, r.addrl, r.hashh, r.hashl, r.drops])
    }

    // The open packet's first B and its sizes so far.
    fn with_packet(self, p: Packet) -> Self {
        match p {
            Packet::Closed | Packet::Opened => self.with_all(&[0, 0]),
            Packet::Known { b, sizes } => self.with_all(&[b, sizes]),
        }
    }

    // Kind, A and words left of what the port expects, then the open packet.
    fn with_expect(self, e: Expect) -> Self {
        match e {
            Expect::CommandA(packet) => self.with_all(&[0, 0, 0]).with_packet(packet),
            Expect::CommandB { a, packet } => self.with_all(&[1, a, 0]).with_packet(packet),
            Expect::Payload { a, left, packet } => {
                self.with_all(&[2, a, left]).with_packet(packet)
            }
        }
    }

    fn with_port(self, p: Port) -> Self {
        self.with_expect(p.expect)
            .with_all(&[u32::from(p.failed), p.whole])
    }

    // The digest of a state's numbers.
    pub fn of_state(s: State) -> Self {
        let mut d = Self::EMPTY
            .with_registers(s.control.registers)
            .with_port(s.control.port);
        for Ring { at, count } in [s.txdata, s.txstatus, s.rxdata, s.rxstatus] {
            d = d.with(at).with(count);
        }
        d
    }
}

impl fmt::Display for Digest {
    fn fmt<W: fmt::Write>(&self, f: &mut fmt::Formatter<W>) -> fmt::Result {
        let d = self.0;
        write!(f, "{d:08x}")
    }
}
