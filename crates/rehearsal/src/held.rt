// Part `held`: the seventeen calls on a state of which every FIFO holds words (docs/REHEARSAL.md).
use crate::calls;
use crate::trials::Bench;
use paper::{Control, Expect, Packet, Port, Registers, Ring, State};
use std::io;

// H(MAC_CR), from B(5, MAC_CR).
fn holding(s: State) -> State {
    State {
        control: Control {
            registers: Registers {
                drops: 9,
                ..s.control.registers
            },
            port: Port {
                expect: Expect::CommandA(Packet::Known { b: 64, sizes: 10 }),
                failed: true,
                whole: 2,
            },
        },
        txdata: Ring { at: 7, count: 9 },
        txstatus: Ring { at: 126, count: 3 },
        rxdata: Ring { at: 2639, count: 5 },
        rxstatus: Ring { at: 175, count: 2 },
    }
}

pub fn part(bench: &mut Bench<impl Print>) -> io::Result<()> {
    bench.begin("held")?;
    for (before, maccr) in [("off", 0), ("on", 0x0000_000C)] {
        let s = bench.base(5, maccr);
        calls::each(bench, &before, holding(s))?;
    }
    Ok(())
}
