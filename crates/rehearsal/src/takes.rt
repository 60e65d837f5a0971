// Parts `takes 5` and `takes 14`: takes arrive until memory is full, and are read back (docs/REHEARSAL.md).
use crate::digests::Digest;
use crate::frames::{Frame, To};
use crate::lines::ByName;
use crate::trials::{Bench, Levels};
use crate::{frames, trials};
use paper::State;
use std::io;

// The takes of a round.
const TAKES: usize = 48;

const LENGTHS: [u16; 8] = [64, 65, 66, 67, 600, 1518, 1519, 1514];

fn destination_of(k: usize) -> To {
    if k % 7 == 6 {
        To::All
    } else if k % 5 == 4 {
        To::Other
    } else {
        To::Ours
    }
}

// The frame of take k.
fn frame_of(k: usize) -> Frame {
    let length = LENGTHS[k % 8];
    Frame {
        length,
        kind: if k % 2 == 0 {
            frames::TYPE
        } else {
            length.saturating_sub(18)
        },
        take: k,
        to: destination_of(k),
    }
}

fn flags_of(k: usize) -> u32 {
    if k % 11 == 10 { 4 } else { 0 }
}

// Take k arrives.
fn take(bench: &mut Bench<impl Print>, k: usize, s: State) -> io::Result<State> {
    let frame = frame_of(k);
    let length = frame.length;
    let a = bench.arrive(s, frame, flags_of(k));
    let answer = ByName(a.answer);
    let levels = Levels::of(a.state, bench.mem);
    println!(bench.rt; "take {k} length {length}: {answer} {levels}")?;
    Ok(a.state)
}

// Reads so many data words. Answers their digest, and the state after the last.
fn read_words(count: u32, s: State, mem: &[u32]) -> (Digest, State) {
    let mut at = s;
    let mut digest = Digest::EMPTY;
    for _ in 0..count {
        let r = model::rx_data_read(at, mem);
        let Ok(w) = r.answer else {
            break;
        };
        digest = digest.with(w);
        at = r.state;
    }
    (digest, at)
}

// Reads the frame of a status that was popped.
fn read_frame(bench: &Bench<impl Print>, status: u32, s: State) -> io::Result<State> {
    let length = status / 65536 % 16384;
    let count = length.div_ceil(4);
    let (digest, after) = read_words(count, s, bench.mem);
    println!(bench.rt; "status {status:08x} words {count} digest {digest}")?;
    Ok(after)
}

// Reads all frames. No split has more than 224 statuses.
fn read_frames(bench: &Bench<impl Print>, s: State) -> io::Result<State> {
    let mut at = s;
    for _ in 0..224u32 {
        let r = model::rx_status_pop(at, bench.mem);
        let Ok(status) = r.answer else {
            break;
        };
        at = read_frame(bench, status, r.state)?;
    }
    Ok(at)
}

// Reads everything back, and shows that nothing is left.
fn read_back(bench: &Bench<impl Print>, s: State) -> io::Result<State> {
    let at = read_frames(bench, s)?;
    let none = bench.call("status", at, model::rx_status_pop)?;
    let empty = bench.call("data", none, model::rx_data_read)?;
    let cleared = bench.call("drop", empty, model::rx_drop)?;
    bench.call("drop", cleared, model::rx_drop)
}

// The state that takes arrive at, each of its calls on a line.
fn prepared(bench: &Bench<impl Print>, n: u32) -> io::Result<State> {
    let fresh = State::fresh();
    let mut s = bench.call("set_split", fresh, |s, mem| model::set_split(s, mem, n))?;
    for (name, register, value) in trials::writes(trials::RXEN) {
        s = bench.call(name, s, |s, mem| model::mac_write(s, mem, register, value))?;
    }
    Ok(s)
}

// Two rounds: takes arrive, and are read back.
pub fn part(bench: &mut Bench<impl Print>, n: u32) -> io::Result<()> {
    bench.begin(format_args!("takes {n}"))?;
    let mut s = prepared(bench, n)?;
    for first in [0, TAKES] {
        for k in first..first + TAKES {
            s = take(bench, k, s)?;
        }
        s = read_back(bench, s)?;
    }
    Ok(())
}
