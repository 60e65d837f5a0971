// Part `filter`: each setting of the five mode bits meets six destinations (docs/REHEARSAL.md).
use crate::frames::{Frame, To};
use crate::lines::{ByName, InNumbers};
use crate::trials::Bench;
use crate::{settings, trials};
use paper::State;
use std::io;

// MAC_CR with BCAST; with RXALL.
const BCAST: u32 = 0x0000_0800;

const RXALL: u32 = 0x8000_0000;

// What a line shows of each frame: its answer, or the status that it left, if one.
#[derive(Clone, Copy)]
enum Shown {
    Answer,
    Status,
}

// A frame for this destination arrives.
fn meets(bench: &mut Bench<impl Print>, s: State, to: To, shown: Shown) -> io::Result<()> {
    let a = bench.arrive(s, Frame::short(to), 0);
    match shown {
        Shown::Answer => print!(bench.rt; " {}", ByName(a.answer)),
        Shown::Status => {
            let peek = model::rx_status_peek(a.state, bench.mem);
            print!(bench.rt; " {}", InNumbers(peek.answer))
        }
    }
}

// The rest of a line: frames for six destinations.
fn rest(bench: &mut Bench<impl Print>, s: State, shown: Shown) -> io::Result<()> {
    for to in [To::Ours, To::Other, To::Near, To::Group, To::Six, To::All] {
        meets(bench, s, to, shown)?;
    }
    println!(bench.rt; "")
}

// The three lines of setting k: each line's label, the bits of MAC_CR that it adds, and what it shows.
fn setting(bench: &mut Bench<impl Print>, s: State, k: u32) -> io::Result<()> {
    let maccr = settings::maccr_of(k) | trials::RXEN;
    for (name, bits, shown) in [
        ("", 0, Shown::Answer),
        (" bcast", BCAST, Shown::Answer),
        (" rxall", RXALL, Shown::Status),
    ] {
        let r = model::mac_write(s, bench.mem, 1, maccr | bits);
        let said = InNumbers(r.answer);
        print!(bench.rt; "setting {k}{name}: {said}")?;
        rest(bench, r.state, shown)?;
    }
    Ok(())
}

pub fn part(bench: &mut Bench<impl Print>) -> io::Result<()> {
    bench.begin("filter")?;
    let s = bench.base(5, trials::RXEN);
    let high = model::mac_write(s, bench.mem, 4, 0x4000_0040);
    let low = model::mac_write(high.state, bench.mem, 5, 0x8000_0000);
    for k in 0..32u32 {
        setting(bench, low.state, k)?;
    }
    Ok(())
}
