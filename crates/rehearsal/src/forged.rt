// Part `state`: each number of a state at its last good value and past it (docs/REHEARSAL.md). A forged state is one that no call made.
use crate::trials::Bench;
use crate::{calls, trials};
use paper::{Control, Expect, Fifo, Packet, Port, Registers, Ring, State};
use std::{fmt, io};

// The line of a forged state: what was changed, to what, and what rx_fifo_inf answers.
fn line(
    bench: &Bench<impl Print>,
    name: impl fmt::Display + Drop,
    v: u32,
    s: State,
) -> io::Result<()> {
    bench.call(format_args!("{name} {v:08x}"), s, model::rx_fifo_inf)?;
    Ok(())
}

fn registers(bench: &Bench<impl Print>, s: State) -> io::Result<()> {
    let r = s.control.registers;
    for n in [0, 1, 2, 14, 15, 0xFFFF_FFFF] {
        line(bench, "n", n, trials::with_n(s, n))?;
    }
    for maccr in [0x801D_A80C, 0x801F_A80C, 1, 0xFFFF_FFFF] {
        let changed = Registers { maccr, ..r };
        line(bench, "maccr", maccr, trials::with_registers(s, changed))?;
    }
    for addrh in [0xFFFF, 0x1_0000, 0xFFFF_FFFF] {
        let changed = Registers { addrh, ..r };
        line(bench, "addrh", addrh, trials::with_registers(s, changed))?;
    }
    any_word(bench, s)
}

// The registers that may hold any word.
fn any_word(bench: &Bench<impl Print>, s: State) -> io::Result<()> {
    let r = s.control.registers;
    let v = 0xFFFF_FFFF;
    for (name, changed) in [
        ("addrl", Registers { addrl: v, ..r }),
        ("hashh", Registers { hashh: v, ..r }),
        ("hashl", Registers { hashl: v, ..r }),
        ("drops", Registers { drops: v, ..r }),
    ] {
        line(bench, name, v, trials::with_registers(s, changed))?;
    }
    Ok(())
}

// The name of a FIFO on the page. No Display: that would be in `paper`, where the FIFO is, and the name is this page's.
fn name(fifo: Fifo) -> &'static str {
    match fifo {
        Fifo::TxData => "txdata",
        Fifo::TxStatus => "txstatus",
        Fifo::RxData => "rxdata",
        Fifo::RxStatus => "rxstatus",
    }
}

// A FIFO's last place and count, those past them, and the last word of all.
fn edges(bench: &Bench<impl Print>, n: u32, s: State, fifo: Fifo, size: u32) -> io::Result<()> {
    let name = name(fifo);
    for at in [size.wrapping_sub(1), size, 0xFFFF_FFFF] {
        let forged = s.with_ring(fifo, Ring { at, count: 0 });
        line(bench, format_args!("n {n} {name} place"), at, forged)?;
    }
    for count in [size, size.wrapping_add(1), 0xFFFF_FFFF] {
        let forged = s.with_ring(fifo, Ring { at: 0, count });
        line(bench, format_args!("n {n} {name} count"), count, forged)?;
    }
    Ok(())
}

// The four FIFOs, of these sizes.
fn rings(
    bench: &Bench<impl Print>,
    n: u32,
    txdata: u32,
    rxdata: u32,
    rxstatus: u32,
) -> io::Result<()> {
    let s = bench.base(n, trials::PASSBAD);
    for (fifo, size) in [
        (Fifo::TxData, txdata),
        (Fifo::TxStatus, 128),
        (Fifo::RxData, rxdata),
        (Fifo::RxStatus, rxstatus),
    ] {
        edges(bench, n, s, fifo, size)?;
    }
    Ok(())
}

// A state with another port, in which no transmit error stands.
fn with_port(s: State, expect: Expect, whole: u32) -> State {
    let port = Port {
        expect,
        failed: false,
        whole,
    };
    State {
        control: Control { port, ..s.control },
        ..s
    }
}

// Whole packets, with so many words of TX data held.
fn wholes(bench: &Bench<impl Print>, s: State) -> io::Result<()> {
    for (held, whole) in [(5, 1), (5, 2), (5, 0xFFFF_FFFF), (6, 2), (6, 3)] {
        let filled = s.with_ring(Fifo::TxData, Ring { at: 0, count: held });
        let forged = with_port(filled, Expect::CommandA(Packet::Closed), whole);
        line(bench, format_args!("held {held} whole"), whole, forged)?;
    }
    Ok(())
}

const FIRST_AS: [u32; 6] = [
    0x0000_2001,
    0x0000_2000,
    0x0000_0001,
    0x0200_2001,
    0x0300_2001,
    0x001F_37FF,
];

const OPEN_BS: [u32; 6] = [
    0x0000_0001,
    0x0000_0000,
    0x0000_05EA,
    0x0000_05EB,
    0x0000_25EE,
    0x0000_25EF,
];

// An A held, no packet open before it; an A held, in an open packet; the first B of an open packet.
fn commands(bench: &Bench<impl Print>, s: State) -> io::Result<()> {
    for a in FIRST_AS {
        let packet = Packet::Opened;
        let expect = Expect::CommandB { a, packet };
        line(bench, "first a", a, with_port(s, expect, 0))?;
    }
    for a in [0x0000_0001, 0x0000_2001, 0x0000_0000] {
        let packet = Packet::Known { b: 100, sizes: 10 };
        let expect = Expect::CommandB { a, packet };
        line(bench, "later a", a, with_port(s, expect, 0))?;
    }
    for b in OPEN_BS {
        let expect = Expect::CommandA(Packet::Known { b, sizes: 1 });
        line(bench, "open b", b, with_port(s, expect, 0))?;
    }
    Ok(())
}

// The sizes so far of an open packet, and the payload words left of a buffer: 20 are asked for.
fn counts(bench: &Bench<impl Print>, s: State) -> io::Result<()> {
    for sizes in [64, 65, 0xFFFF_FFFF] {
        let expect = Expect::CommandA(Packet::Known { b: 64, sizes });
        line(bench, "sizes", sizes, with_port(s, expect, 0))?;
    }
    for left in [0, 1, 20, 21, 0xFFFF_FFFF] {
        let expect = Expect::Payload {
            a: 0x0105_203D,
            left,
            packet: Packet::Known { b: 61, sizes: 61 },
        };
        line(bench, "left", left, with_port(s, expect, 0))?;
    }
    Ok(())
}

pub fn part(bench: &mut Bench<impl Print>) -> io::Result<()> {
    bench.begin("state")?;
    let s = bench.base(5, trials::PASSBAD);
    registers(bench, s)?;
    rings(bench, 2, 384, 3360, 224)?;
    rings(bench, 5, 1152, 2640, 176)?;
    rings(bench, 14, 3456, 480, 32)?;
    wholes(bench, s)?;
    commands(bench, s)?;
    counts(bench, s)?;
    calls::each(bench, &"n 15", trials::with_n(s, 15))
}
