// Part `room`: a frame that just fits, and one that does not, for want of words or of a status (docs/REHEARSAL.md).
use crate::frames::Frame;
use crate::trials;
use crate::trials::Bench;
use paper::{Registers, State};
use std::io;

// A frame of this length arrives.
fn arrives(bench: &mut Bench<impl Print>, name: &str, s: State, length: u16) -> io::Result<State> {
    bench.arrives(format_args!("{name} {length}"), s, Frame::long(length), 0)
}

// Frames of these lengths arrive, each on the state that the one before left.
fn in_turn(
    bench: &mut Bench<impl Print>,
    name: &str,
    s: State,
    lengths: &[u16],
) -> io::Result<State> {
    let mut at = s;
    for length in lengths {
        at = arrives(bench, name, at, *length)?;
    }
    Ok(at)
}

fn empty(bench: &mut Bench<impl Print>) -> io::Result<()> {
    let s = bench.base(14, trials::RXEN);
    arrives(bench, "empty", s, 1920)?;
    arrives(bench, "empty", s, 1921)?;
    let registers = Registers {
        drops: 0xFFFF_FFFF,
        ..s.control.registers
    };
    let last = trials::with_registers(s, registers);
    in_turn(bench, "drops", last, &[1518; 3])?;
    Ok(())
}

fn data(bench: &mut Bench<impl Print>) -> io::Result<()> {
    let s = bench.base(14, trials::PASSBAD);
    in_turn(bench, "data", s, &[1856, 65, 64, 14])?;
    Ok(())
}

// One frame more than there are statuses.
fn statuses(bench: &mut Bench<impl Print>) -> io::Result<()> {
    let s = bench.base(14, trials::PASSBAD);
    let full = in_turn(bench, "statuses", s, &[14; 33])?;
    let freed = bench.call("pop", full, model::rx_status_pop)?;
    arrives(bench, "statuses", freed, 14)?;
    Ok(())
}

pub fn part(bench: &mut Bench<impl Print>) -> io::Result<()> {
    bench.begin("room")?;
    empty(bench)?;
    data(bench)?;
    statuses(bench)
}
