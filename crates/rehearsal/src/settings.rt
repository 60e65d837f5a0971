// Parts `registers` and `restarts`: register numbers and values, setting n, and dumps (docs/REHEARSAL.md).
use crate::frames::{Frame, To};
use crate::trials;
use crate::trials::Bench;
use paper::State;
use std::{fmt, io};

// Each register is read, and 0 is written to it.
fn register_numbers(bench: &Bench<impl Print>, s: State) -> io::Result<()> {
    for k in [0, 1, 2, 3, 4, 5, 6, 0xFFFF_FFFF] {
        let read = format_args!("read {k:08x}");
        bench.call(read, s, |s, mem| model::mac_read(s, mem, k))?;
        let write = format_args!("write {k:08x}");
        bench.call(write, s, |s, mem| model::mac_write(s, mem, k, 0))?;
    }
    Ok(())
}

// A value is written to a register.
fn written(
    bench: &Bench<impl Print>,
    name: impl fmt::Display + Drop,
    s: State,
    register: u32,
    v: u32,
) -> io::Result<()> {
    let label = format_args!("{name} {v:08x}");
    bench.call(label, s, |s, mem| model::mac_write(s, mem, register, v))?;
    Ok(())
}

// MAC_CR with the five mode bits of setting k: MCPAS, PRMS, INVFILT, HO, HPFILT.
pub fn maccr_of(k: u32) -> u32 {
    let first = k / 16 % 2 << 19 | k / 8 % 2 << 18;
    first | k / 4 % 2 << 17 | k / 2 % 2 << 15 | k % 2 << 13
}

// Each bit of MAC_CR alone, and each of the 32 settings.
fn maccrs(bench: &Bench<impl Print>) -> io::Result<()> {
    let off = bench.base(5, 0);
    for i in 0..32u32 {
        written(bench, "maccr", off, 1, 1 << i)?;
    }
    for k in 0..32u32 {
        written(bench, format_args!("setting {k}"), off, 1, maccr_of(k))?;
    }
    Ok(())
}

pub fn registers(bench: &mut Bench<impl Print>) -> io::Result<()> {
    bench.begin("registers")?;
    let s = bench.base(5, trials::PASSBAD);
    register_numbers(bench, s)?;
    for v in [0xFFFF, 0x1_0000, 0xFFFF_FFFF] {
        written(bench, "addrh", s, 2, v)?;
    }
    maccrs(bench)
}

// n is set, with this MAC_CR.
fn splits(bench: &Bench<impl Print>, maccr: u32, ns: &[u32]) -> io::Result<()> {
    let s = bench.base(5, maccr);
    for n in ns {
        let n = *n;
        let label = format_args!("set_split {n:08x}");
        bench.call(label, s, |s, mem| model::set_split(s, mem, n))?;
    }
    Ok(())
}

// The three dumps, with this MAC_CR.
fn dumps(bench: &Bench<impl Print>, maccr: u32) -> io::Result<()> {
    let s = bench.base(5, maccr);
    bench.call("dump_rx", s, model::dump_rx)?;
    bench.call("dump_tx_data", s, model::dump_tx_data)?;
    bench.call("dump_tx_status", s, model::dump_tx_status)?;
    Ok(())
}

// n is set while a frame waits, while its words do, and when both FIFOs are empty again.
fn waiting(bench: &mut Bench<impl Print>) -> io::Result<()> {
    let s = bench.base(5, trials::RXEN);
    let held = bench.arrives("waiting", s, Frame::short(To::Ours), 0)?;
    let off = bench.call("maccr", held, |s, mem| model::mac_write(s, mem, 1, 0))?;
    let refused = bench.call("set_split", off, |s, mem| model::set_split(s, mem, 6))?;
    let popped = bench.call("status", refused, model::rx_status_pop)?;
    let again = bench.call("set_split", popped, |s, mem| model::set_split(s, mem, 6))?;
    let empty = bench.call("dump_rx", again, model::dump_rx)?;
    let resized = bench.call("set_split", empty, |s, mem| model::set_split(s, mem, 6))?;
    bench.call("split", resized, model::split)?;
    Ok(())
}

pub fn restarts(bench: &mut Bench<impl Print>) -> io::Result<()> {
    bench.begin("restarts")?;
    splits(bench, 0, &[0, 1, 2, 14, 15, 0xFFFF_FFFF])?;
    splits(bench, trials::RXEN, &[6])?;
    splits(bench, trials::TXEN, &[6])?;
    dumps(bench, trials::RXEN)?;
    dumps(bench, trials::TXEN)?;
    waiting(bench)
}
