// Part `memory`, and the seventeen calls, each on the same state (docs/REHEARSAL.md).
use crate::frames::{Frame, To};
use crate::trials::Bench;
use crate::{lines, trials};
use paper::{Reply, State};
use std::{fmt, io};

// The calls for registers and restarts, each by its name.
fn register_calls(s: State, mem: &[u32]) -> [(&'static str, Reply<u32>); 11] {
    [
        ("reset", model::reset(s, mem)),
        ("mac_write", model::mac_write(s, mem, 4, 0x1234_5678)),
        ("mac_read", model::mac_read(s, mem, 2)),
        ("set_split", model::set_split(s, mem, 6)),
        ("split", model::split(s, mem)),
        ("rx_fifo_inf", model::rx_fifo_inf(s, mem)),
        ("tx_fifo_inf", model::tx_fifo_inf(s, mem)),
        ("rx_drop", model::rx_drop(s, mem)),
        ("dump_tx_data", model::dump_tx_data(s, mem)),
        ("dump_tx_status", model::dump_tx_status(s, mem)),
        ("dump_rx", model::dump_rx(s, mem)),
    ]
}

// An arriving frame, its answer in numbers.
fn arrive_call(s: State, mem: &mut [u32]) -> Reply<u32> {
    let a = trials::arrive(s, mem, Frame::short(To::Ours), 0);
    lines::reply(a)
}

// The host's reads, each by its name.
fn read_calls(s: State, mem: &[u32]) -> [(&'static str, Reply<u32>); 5] {
    [
        ("rx_data_read", model::rx_data_read(s, mem)),
        ("rx_status_pop", model::rx_status_pop(s, mem)),
        ("rx_status_peek", model::rx_status_peek(s, mem)),
        ("tx_status_pop", model::tx_status_pop(s, mem)),
        ("tx_status_peek", model::tx_status_peek(s, mem)),
    ]
}

// The seventeen calls; this stands before a call's name.
pub fn each(bench: &mut Bench<impl Print>, before: &impl fmt::Display, s: State) -> io::Result<()> {
    for (name, r) in register_calls(s, bench.mem) {
        bench.called(format_args!("{before} {name}"), r)?;
    }
    let r = arrive_call(s, bench.mem);
    bench.called(format_args!("{before} arrive"), r)?;
    for (name, r) in read_calls(s, bench.mem) {
        bench.called(format_args!("{before} {name}"), r)?;
    }
    Ok(())
}

// The first words, so many of them; all where there are fewer.
fn front(words: &mut [u32], length: usize) -> &mut [u32] {
    let end = length.min(words.len());
    &mut words[..end]
}

// One word more than is lent to a call that is not refused. Last, a word too few, and a state that is out of its range: 14 comes before 15.
pub fn part(rt: &impl Print) -> io::Result<()> {
    let mut words = [0; 4097];
    let mut all = Bench {
        rt,
        mem: &mut words,
    };
    all.begin("memory")?;
    let s = trials::base(5, trials::PASSBAD, front(&mut words, 4096));
    for length in [0, 4095, 4097, 4096] {
        let mut bench = Bench {
            rt,
            mem: front(&mut words, length),
        };
        each(&mut bench, &format_args!("memory {length}"), s)?;
    }
    let mut bench = Bench {
        rt,
        mem: front(&mut words, 4095),
    };
    each(&mut bench, &"both", trials::with_n(s, 15))
}
