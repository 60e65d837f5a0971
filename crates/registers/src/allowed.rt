// Whether setting n, or a dump, is allowed now (01, Registers, its last paragraph).
ghost use Rattle.std.specs.Prelude.{◌≡◌, not, ◌<◌};
ghost use Rattle.paper.specs.Words.{bit};
ghost use Rattle.paper.specs.Registers.{is_idle, may_resize, may_dump_tx_data, may_dump_rx};
ghost use Rattle.registers.specs.States.{levels_of};

use paper::{Expect, Packet, Port, Registers, State};

// Bit i of v is clear.
fn is_clear(i: u32, v: u32) -> bool
    requires { i < 32 }
    ensures { result ≡ not (bit i v) }
{
    !words::fields::bit_is_set(i, v)
}

// The two dumps have a test each over is_clear, for each renders a sentence of 01.
// 01: "Dumping TX data needs TXEN clear"
pub fn may_dump_tx_data(r: Registers) -> bool
    ensures { result ≡ may_dump_tx_data r }
{
    is_clear(Registers::TXEN, r.maccr)
}

// 01: "Dumping RX needs RXEN clear"
pub fn may_dump_rx(r: Registers) -> bool
    ensures { result ≡ may_dump_rx r }
{
    is_clear(Registers::RXEN, r.maccr)
}

// 01: "no transmit buffer or packet is open and no transmit error stands"
fn is_idle(p: Port) -> bool
    ensures { result ≡ is_idle p }
{
    matches!(p.expect, Expect::CommandA(Packet::Closed)) & !p.failed
}

// 01: "only if all four FIFOs are empty, TXEN and RXEN are clear, no transmit buffer or packet is open and no transmit error stands"
#[tactic(auto, unfolding(paper::specs::Registers::may_resize))]
pub fn may_resize(s: State) -> bool
    ensures { result ≡ may_resize s.control.registers s.control.port (levels_of s) }
{
    let maccr = s.control.registers.maccr;
    let empty = (s.txdata.count == 0)
        & (s.txstatus.count == 0)
        & (s.rxdata.count == 0)
        & (s.rxstatus.count == 0);
    empty
        & is_clear(Registers::TXEN, maccr)
        & is_clear(Registers::RXEN, maccr)
        & is_idle(s.control.port)
}
